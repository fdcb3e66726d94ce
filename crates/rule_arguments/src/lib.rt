//! Rules on the use of directives and arguments (sections 5.4, 5.7 and 5.8.5).
//!
//! For the layers above: each check adds exactly the faults by which the rules of its name break, as far as the list of
//! faults has room for them (`fault_data::MOST_TOLD`). The rules are predicates of `rule_definitions` (`specs/Uses.antt`)
//! on the trees of what is used. They tell the same faults for a schema's directives at their places as at their
//! addresses (`specs/Laws.antt`). What needs neither a schema nor variables is in `specs/Alone.antt`.
//!
//! Begin with `directives.rt` and `taken.rt`.
#![tactic(auto)]

mod directives;
mod given;
pub mod laws;
mod rule_context;
mod schema_uses;
mod taken;
mod taker;
mod usage;

pub use directives::{check_directives, check_directives_alone, check_uses};
pub use given::{check_arguments_alone, check_given};
pub use schema_uses::check_schema_directives;
pub use taken::check_taken;
pub use taker::{Taker, TakerName};
pub use usage::usage_fault;

// Re-exported from the crates below, for those above.
pub use rule_values::{
    DefinedArguments, DefinedVariables, DiagnosticData, Fault, IndexedSchema, Schema, SchemaInputs,
    TypeAttributeCoordinate, check_value, note_first, tell, type_breaks, unique_input_values,
};
