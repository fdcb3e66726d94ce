//! Documents under a schema: operations and fragments whose selections have definitions and types.
//!
//! For the layers above: contracts see operations, fragments and documents as plain trees (`specs/TypedDocument.antt`);
//! equality is that of the trees without places, sources and the order of what is named (`specs/PlainDocument.antt`);
//! what is written of a document is `ast_document` of its tree (`specs/ToAst.antt`).
//!
//! What a walk over a set lends is one list from the start on, each selection of the set and of each reached fragment once
//! (`IsMemberWalk`, and of fields `IsWalk`, of `specs/Reached.antt`), of which each call takes the first (`LendsNextSelection`
//! and `LendsNext` of `specs/Lending.antt`). It is exactly what is reached (`IsReached`). Walks end over cyclic documents too.
//!
//! Begin with `specs/TypedDocument.antt` and `document.rt`; of walks with `selections.rt` and `specs/Reached.antt`.
#![tactic(auto)]

mod document;
mod fields;
pub mod laws;
mod operation;
mod operation_map;
mod selections;
mod selections_to_ast;
mod to_ast;
mod walk;
mod written_node;

pub use document::{ExecutableDocument, FieldSet, FragmentMap};
pub use fields::{AllFields, RootFields};
pub use operation::{Fragment, Operation};
pub use operation_map::{OperationEntry, OperationKey, OperationMap, Operations};
pub use selections::{ReachedSelections, reached_fragments};
