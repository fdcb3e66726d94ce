//! What is wrong with texts, schemas and documents: lists of it, and how it is told.
//!
//! For the layers above: contracts see a list as places and plain data (`specs/DetailsTree.antt`); a list grows at its end; a
//! message is its template, filled (`specs/DetailsMessages.antt`, and those of the crates below); a name is that of the rule
//! (`specs/DetailsNames.antt`).
//!
//! In a list that a call tells no two faults are equal: what is added is new (`specs/Added.antt`, `specs/Once.antt`).
//!
//! What breaks rules is in `fault_data`. Begin with `details.rt` and `diagnostic_list.rt`; of lists without equal faults with
//! `add.rt`, `buckets.rt` and `told.rt`.
#![tactic(auto)]

mod add;
mod breach;
mod buckets;
mod comma_separated;
mod data;
mod details;
mod diagnostic_list;
mod fault;
mod name_or_anon;
mod once;
mod rule_names;
mod same_details;
mod told;

pub use add::add_new;
pub use breach::is_same_breach;
pub use comma_separated::CommaSeparated;
pub use data::is_same_data;
pub use details::Details;
pub use diagnostic_list::DiagnosticList;
pub use fault::is_same_fault;
pub use fault_data::DiagnosticData;
pub use fault_document_errors::{
    ConflictingFieldArgument, ConflictingFieldName, ConflictingFieldType,
};
pub use name_or_anon::NameOrAnon;
pub use once::each_once;
pub use told::Told;

// Re-exported from the crates below, for those above.
pub use graphql_read::{ReadFault, SyntaxFault, parse_shared_document};
