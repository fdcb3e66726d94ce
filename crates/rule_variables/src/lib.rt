//! Rules on the variables of an operation (section 5.8), on their defaults (section 5.6) and their directives (section 5.7).
//!
//! For the layer above: each check adds exactly the faults by which its rules break, where there is room for them (`fault_data`).
//! Those rules are predicates of `rule_document_definitions` (`specs/Variables.antt`); `specs/Parts.antt` says which check has
//! which. One asks nothing of a schema, and looks at all that the operation reaches; the other looks at the variables alone.
//!
//! Begin with `check.rt`; the rules are in `unique.rt`, `unused.rt` and `types.rt`.
#![tactic(auto)]

mod check;
mod reached;
mod types;
mod unique;
mod unused;

pub use check::{check_variables, check_variables_alone};
