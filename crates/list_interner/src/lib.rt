//! Lists and pairs of numbers, remembered by which numbers they have.
//!
//! For the layer above: a `NumberPairs` remembers pairs of numbers (`KeepsPair` of `specs/NumberPairs.antt`), a
//! `NumberLists` lists of numbers (`Keeps` of `specs/NumberLists.antt`), whatever the order of these; a `NumberSet` is a set
//! of numbers (`specs/NumberSet.antt`); a `NumberRows` has lists unchanged, in the order in which they were added
//! (`specs/NumberRows.antt`). Each of the first three gives a number above all that it has (`bound`). A `NumberLists` tells
//! whether a number is in the list at an index (`list_at`): two numbers of one list are together in a list that was
//! remembered (`proofs/Found.antt`). `proofs/Rows.antt` and `proofs/Kept.antt` say what is kept after a call and how many
//! pairs there can be, `proofs/Few.antt` how long lists can be in all, and `proofs/Standing.antt` how lists of numbers
//! relate to lists of the things that they number.
//!
//! Begin with `lists.rt` and `specs/NumberLists.antt`, then `pairs.rt`.
#![tactic(auto)]

mod bits;
mod lists;
mod number_rows;
mod pairs;
mod set;

pub use lists::NumberLists;
pub use number_rows::{NumberRows, short};
pub use pairs::NumberPairs;
pub use set::NumberSet;
