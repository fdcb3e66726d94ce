//! The rules against definitions that lead back to themselves, and the bound on references (sections 3.10 and 3.13).
//!
//! For the layer above: `check_cycles` tells each input object and each directive definition that leads back to itself,
//! or that the bound is passed; `rule_definitions` (`specs/Cycles.antt`) says what that means.
//!
//! Nodes are numbers, and `rule_cycle_search` finds the cycles through each root, in a graph of directives and types.
//! Input objects are roots in `check_inputs.rt`, directives in `check_directives.rt`.
//!
//! `References` keeps what nodes refer to, and the first reference to each node: fragments are nodes too, in
//! `rule_fragments`.
//!
//! Begin with `check.rt` and `check_inputs.rt`.
#![tactic(auto)]

mod check;
mod check_directives;
mod check_inputs;
mod directive_faults;
mod flat;
mod input_faults;
mod inputs;
mod numbers;
mod references;
mod rule_context;
mod uses;

pub use check::check_cycles;
pub use references::{Reference, References};

// Re-exported from the crates below, for those above.
pub use graphql_schema::{Schema, laws};
