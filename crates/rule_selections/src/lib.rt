//! Rules on each selection that an operation reaches (sections 5.3.3, 5.4, 5.6, 5.7 and 5.8): fields of composite types select
//! some of their fields, and arguments and directives keep the rules on uses.
//!
//! For the layers above: each check adds exactly the faults by which the rules of its name break, where there is room for them
//! (`fault_data`), over what the operation reaches in a document: `SelectionsBreak` under a schema, `GivenInBreaks` without one.
//! What is reached in a typed document, or in a typed field set, is typed (`proofs/TypedReached.antt`).
//!
//! What operations share is judged once: `settled_fragments` gives what replaces the fragments of a document (`MayReplace` of
//! `specs/Settled.antt`): fragments without those selections, at any depth, for which no fault is told under the variables that
//! all operations define alike, and whose variables the rest of the fragment uses too. So a walk from an operation does not
//! meet these selections, and still tells the same (`proofs/SameFaults.antt`).
//!
//! Begin with `selections.rt`, then `fields.rt`; `settled.rt`, then `thinned.rt`, `within.rt`, `quiet.rt`,
//! `common.rt` and `used.rt`.
#![tactic(auto)]

mod alone;
mod common;
mod fields;
mod quiet;
mod selections;
mod settled;
mod thinned;
mod used;
mod within;

pub use alone::check_selections_alone;
pub use selections::check_selections;
pub use settled::settled_fragments;

// Of the crates below, for those above.
pub use rule_arguments::{IndexedSchema, SchemaInputs};
