//! Rows of schema texts and documents that a checker judges: the terms on which a row wants its texts judged, the ways in
//! which they go to the checker, and what its answers are in words.
//!
//! For the program of rows, which says how the checker answers (`Checks`): `Checking` has the calls over these. Whatever
//! needs no call of the checker is here, so that it is proved at the same time as the checker and not after it.
//!
//! Begin with `checks.rt` and `judging.rt`.
#![tactic(auto)]

mod asked;
mod by_back;
mod by_run;
mod checks;
mod devices;
mod judged;
mod judging;
mod lent;
mod pair;
mod told;
mod words;

pub use asked::{Asked, layouts};
pub use checks::{Checks, Texts};
pub use judging::Checking;
pub use told::Told;
