//! Rules of schemas, values and directives (GraphQL, October 2021, sections 3 and 5).
//!
//! For the layers above: a check adds to a list the first 1,000 of the faults by which the rules of its name break, at their
//! places, and no others (`specs/Appends.antt`); what breaks a rule is a predicate named after its variant, in
//! `rule_definitions`. Of a schema `validate_schema` tells the first 1,000 of them all (`specs/SchemaTold.antt`), and leaves
//! the types that are kept. Where it tells nothing, implementing is a strict order on interfaces, and each input type has a
//! literal (`rule_schema_laws`).
//!
//! The rules are in inner crates side by side: `rule_types`, `rule_cycles`, `rule_arguments`, `rule_values`.
//! Begin with `schema.rt`.
#![tactic(auto)]

mod given;
mod kept;
pub mod laws;
mod references;
mod scalars;
mod schema;
mod values;

pub use given::{validate_arguments, validate_directives, validate_variable_usage};
pub use rule_types::is_valid_implementation_field_type;
pub use scalars::BuiltInScalars;
pub use schema::validate_schema;
pub use values::value_of_correct_type;

// Re-exported from the crates below, for those above.
pub use graphql_faults::{Details, DiagnosticList};
