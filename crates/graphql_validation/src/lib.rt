//! Rules on documents (GraphQL, October 2021, section 5): on documents and field sets under a schema, and those that need none.
//!
//! For the layers above: a call adds to a list what breaks the rules of its document, each fault at its place, and nothing
//! else (`specs/ValidationFaults.antt`, `specs/TellsDocument.antt`): all of it, or 1,000 faults, `MOST_TOLD` of `fault_data`. Once as many
//! are told, no further operation is judged. It adds nothing exactly when all rules hold, apart from memory and the bounds. What
//! breaks a rule is a predicate named after its variant, in `rule_document_definitions`. To check many documents over a schema,
//! find its `PossibleTypes` and `SchemaInputs` once, and pass them to `validate_with_possible_types`.
//!
//! The rules are in inner crates side by side: `rule_variables`, `rule_selections` and `rule_fragments`, which has those on
//! subscriptions too; what an operation reaches is found once, by `rule_reach`. Fields are merged
//! by `rule_merging`, operation by operation; a field where it is selected is a `FieldSelection`, of `rule_reach`.
//! Begin with `document.rt`, `field_set.rt` and `standalone.rt`.
//!
//! `lasting.rt` judges what typing left of a document: it tells only faults of rules that stay broken whatever is added to
//! the document, since nothing that is missing can be why they are broken. `specs/Parts.antt` says when a document is part
//! of another, `specs/LastingRules.antt` which rules these are, and `laws.rt` that they stay broken in every document of
//! which the document is a part. `filters.rt` selects their faults.
#![tactic(auto)]

mod alone;
mod document;
mod field_set;
mod filters;
mod found;
mod lasting;
pub mod laws;
mod standalone;
mod told;
mod under_schema;

pub use document::{validate_executable_document, validate_with_possible_types};
pub use field_set::validate_field_set;
pub use lasting::tell_lasting_faults;
pub use rule_fragments::{FieldSelection, PossibleTypes};
pub use rule_merging::FieldsInSetCanMerge;
pub use rule_selections::{IndexedSchema, SchemaInputs};
pub use standalone::validate_standalone_executable;
