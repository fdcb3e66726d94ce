//! Typing of selection sets that are not in a document.
ghost use Rattle.std.specs.Prelude.{◌≡◌, [], Some, IfOk};
ghost use Rattle.graphql_schema.specs.SchemaOf.{schema_tree};
ghost use Rattle.document_typed_selections.specs.TypedTree.{typed_set_tree};
ghost use Rattle.document_typing.specs.MeantTree.{meant_of_set};
ghost use Rattle.document_typing.specs.KeptSelections.{IsKeptSet};
ghost use Rattle.document_typing.specs.TypedByPlace.{IsSetOn};
ghost use Rattle.document_typing.specs.DefinedByPlace.{IsDefinedSet};
ghost use Rattle.document_typing.specs.TypingFaults.{AreSetFaults};
ghost use Rattle.document_typing.specs.FullList.{TellsSet};
ghost use Rattle.document_typing.specs.FaultView.{faults_of};
ghost use Rattle.document_typing.specs.SetView.{schema_meanings, given_set};

use crate::selections::type_set;
use crate::typing::Typing;
use document_typed_operations::FieldSet;
use fault_document_errors::BuildError;
use graphql_names::{Name, SourceSpan};
use graphql_schema::Schema;
use indexmap::IndexMap;
use std::alloc::{AllocError, Global};
use tree_operations::Selection;

/// The selections that have a meaning on the type of that name, as a set on it, which is typed by its place, and each way
/// in which a rule of typing is broken in it.
pub fn field_set_from_ast(
    alloc: Global,
    schema: &Schema,
    type_name: &Name,
    selections: &[Selection],
) -> Result<(FieldSet, Vec<(Option<SourceSpan>, BuildError)>), AllocError>
    ensures set { IfOk result (λ r. IsKeptSet (schema_meanings schema.now) type_name.now.text (given_set selections.now) (typed_set_tree r.0.selection_set)) }
    ensures typed { IfOk result (λ r. IsSetOn (schema_meanings schema.now) type_name.now.text (meant_of_set (typed_set_tree r.0.selection_set))) }
    ensures defined { IfOk result (λ r. IsDefinedSet (Some (schema_tree schema.now)) (typed_set_tree r.0.selection_set)) }
    ensures sources { IfOk result (λ r. r.0.sources.entries ≡ []) }
    ensures faults { IfOk result (λ r. AreSetFaults (schema_meanings schema.now) type_name.now.text (given_set selections.now) (faults_of r.1)) }
    ensures full { IfOk result (λ r. TellsSet (schema_meanings schema.now) type_name.now.text (given_set selections.now) (faults_of r.1)) }
{
    let mut faults = Vec::new(alloc);
    let typing = Typing {
        alloc,
        schema: Some(schema),
    };
    let selection_set = type_set(&typing, type_name, selections, &mut faults)?;
    let sources = IndexMap::new(alloc);
    Ok((
        FieldSet {
            sources,
            selection_set,
        },
        faults,
    ))
}
