//! Laws of the verdict and of what is written, each the contract of a function that does nothing.
//!
//! - `written_again.rt`: what is written of a schema, folded and written again. Where no folding rule is broken, what is written is a
//!   list of whole definitions and extensions of the texts (`specs/Whole.antt`, `specs/WholeSchema.antt`), and at most an
//!   implicit schema definition. So it can be written, breaks no folding rule, folds to an equal schema, is written unchanged,
//!   and nests no deeper. Begin with `specs/Twice.antt`.
//! - `rearranging.rt`: lists of definitions that differ only in order and places. How they differ is said in
//!   `specs/RearrangedLists.antt`, and by which permutations in `specs/Permuting.antt`. They fold to equal schemas and
//!   break the same folding rules (`specs/Folding.antt`), keep the same rules, on documents too (`specs/Judging.antt`), and what
//!   is written of them is rearranged again (`specs/Writing.antt`), as is what the settings of a builder make of them
//!   (`specs/Adopting.antt`). One list from texts that are cut in two ways is a case of it, in which the same is written
//!   (`specs/Cutting.antt`). What all of it comes to for texts that are read is in `specs/ReadTexts.antt`: begin there.
//! - `verdicts.rt`: what is written of an accepted pair can be written (`specs/Written.antt`): the laws of `written_again.rt` over
//!   texts that are read. The number of a text plays no part, and over equal schemas each document gets the same verdict
//!   (`specs/AnyNumber.antt`). So schema texts with the same definitions, in an order that is the same for each sort, get the
//!   same verdict, and so does each document over them; and of one list that is cut in two ways the same texts are written
//!   (`specs/Rearranged.antt`): the laws of `rearranging.rt`, carried to verdicts.
//! - `road_back.rt`: what is written of an accepted pair of texts is read back equal, accepted on the same terms, and written
//!   unchanged (`specs/RoadBack.antt`). So equal written texts are of equal definitions (`specs/EqualTexts.antt`).
//! - `checked.rt`: the three laws of the checker, over all that its calls may answer by their contracts (`calls.rt`,
//!   `specs/Answers.antt`): texts that are rearranged or cut (`specs/Alike.antt`), what is written and checked again
//!   (`specs/Again.antt`), and equal texts (`specs/Equal.antt`).
#![tactic(auto)]

pub mod calls;
pub mod checked;
pub mod rearranging;
pub mod road_back;
pub mod verdicts;
pub mod written_again;
