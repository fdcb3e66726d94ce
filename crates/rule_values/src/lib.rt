//! Rules on values: a value fits the type that it is given for, the variables in it are defined, and the keys of its objects
//! differ (sections 3.5 to 3.10, 5.6 and 5.8.3).
//!
//! For the layers above: each check adds exactly the faults by which the rules of its name break, as far as there is room for
//! them; the rules are predicates of `rule_definitions` (`specs/Values.antt`) on the value's tree.
//!
//! The schema is given as an `IndexedSchema`: with `SchemaInputs`, which are found once, a use of many arguments or input fields
//! costs what it gives.
//!
//! Begin with `checks.rt`; the rules themselves are in `forms.rt` and `objects.rt`.
#![tactic(auto)]

mod checks;
mod defined;
mod find;
mod forms;
mod indexed;
mod keys;
mod objects;
mod rule_context;
mod types;
mod variables;
mod wanted;

pub use checks::{check_value, type_breaks, undefined_variables, unique_input_values};
pub use defined::DefinedVariables;
pub use fault_data::{DiagnosticData, Fault, TypeAttributeCoordinate, is_full, tell};
pub use find::{find_input, find_value};
pub use graphql_schema::Schema;
pub use indexed::IndexedSchema;
pub use schema_inputs::{DefinedArguments, SchemaInputs, definition_numbers, note_first};
