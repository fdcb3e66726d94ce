//! Making selection sets by themselves.
ghost use Rattle.std.specs.Prelude.{◌≡◌, [], Some, IfOk};
ghost use Rattle.document_typing.specs.in_schema.SchemaOf.{schema_tree};
ghost use Rattle.document_typed_selections.specs.TypedTree.{typed_set_tree};
ghost use Rattle.document_typing.specs.MeantTree.{meant_of_set};
ghost use Rattle.document_typing.specs.KeptSelections.{IsKeptSet};
ghost use Rattle.document_typing.specs.TypedByPlace.{IsSetOn};
ghost use Rattle.document_typing.specs.DefinedByPlace.{IsDefinedSet};
ghost use Rattle.document_typing.specs.TypingFaults.{AreSetFaults};
ghost use Rattle.document_typing.specs.FullList.{TellsSet};
ghost use Rattle.document_typing.specs.FaultView.{faults_of};
ghost use Rattle.document_typing.specs.SetView.{schema_meanings, given_set};

use document_typed_operations::FieldSet;
use document_typing::{BuildError, Schema, field_set_from_ast};
use graphql_names::{Name, SourceSpan};
use std::alloc::{AllocError, Global};
use tree_operations::Selection;

/// Calls that make a selection set by itself.
pub trait FieldSetExt {
    /// A set on the type of that name, with the selections that have a meaning on it. The set is typed by its place. With
    /// it comes each way in which a rule of typing is broken in it.
    fn from_ast(
        alloc: Global,
        schema: &Schema,
        type_name: &Name,
        selections: &[Selection],
    ) -> Result<(FieldSet, Vec<(Option<SourceSpan>, BuildError)>), AllocError>;
}

impl FieldSetExt for FieldSet {
    fn from_ast(
        alloc: Global,
        schema: &Schema,
        type_name: &Name,
        selections: &[Selection],
    ) -> Result<(FieldSet, Vec<(Option<SourceSpan>, BuildError)>), AllocError>
        ensures set { IfOk result (λ r. IsKeptSet (schema_meanings schema.now) type_name.now.text (given_set selections.now) (typed_set_tree r.0.selection_set)) }
        ensures typed { IfOk result (λ r. IsSetOn (schema_meanings schema.now) type_name.now.text (meant_of_set (typed_set_tree r.0.selection_set))) }
        ensures defined { IfOk result (λ r. IsDefinedSet (Some (schema_tree schema.now)) (typed_set_tree r.0.selection_set)) }
        ensures sources { IfOk result (λ r. r.0.sources.entries ≡ []) }
        ensures faults { IfOk result (λ r. AreSetFaults (schema_meanings schema.now) type_name.now.text (given_set selections.now) (faults_of r.1)) }
        ensures full { IfOk result (λ r. TellsSet (schema_meanings schema.now) type_name.now.text (given_set selections.now) (faults_of r.1)) }
    {
        field_set_from_ast(alloc, schema, type_name, selections)
    }
}
