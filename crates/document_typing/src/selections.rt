//! Typing of selections. Functions with many locals are not inlined, so that a level of selections takes only the stack of
//! its kind. Rattle's own compiler inlines whatever has one caller, so the longest of these have two.
ghost use Rattle.std.specs.Prelude.{◌≡◌, [], Option, IfOk, OnOk};
ghost use Rattle.graphql_names.specs.Node.{content};
ghost use Rattle.graphql_names.specs.Placed.{Place, name_tree};
ghost use Rattle.tree_operations.specs.SelectionTree.{selection_tree};
ghost use Rattle.tree_operations.specs.SelectionParts.{field_node_tree, inline_node_tree};
ghost use Rattle.schema_types.specs.SchemaTree.{SchemaTree};
ghost use Rattle.document_typed_selections.specs.TypedTree.{set_type, typed_set_tree};
ghost use Rattle.document_typing.specs.MeantTree.{meant_of_set, set_on};
ghost use Rattle.document_typing.specs.KeptSelections.{kept, IsKeptSet};
ghost use Rattle.document_typing.specs.SetFaults.{selection_faults, set_faults};
ghost use Rattle.document_typing.specs.DefinedField.{definition_view, kept_defined, defined_faults};
ghost use Rattle.document_typing.specs.DefinedByPlace.{IsDefinedSet};
ghost use Rattle.document_typing.specs.SetView.{given_set};
ghost use Rattle.document_typing.specs.Telling.{schema_for, meanings_for, IsTypeUnder, Tells, Keeps, StayDefined, StayDefinedWith};

use crate::keep::{keep_field, keep_inline, keep_spread};
use crate::look_ups::{definition_of, has_type, inner_name, type_under};
use crate::rules::{
    may_select, subselection_on_leaf, undefined_field,
    undefined_type_in_inline_fragment_type_condition,
};
use crate::typing::Typing;
use document_typed_selections as typed;
use fault_document_errors::BuildError;
use graphql_names::{Name, Node, SourceSpan};
use schema_types::ExtendedType;
use std::alloc::{AllocError, Global};
use tree_operations::{Field, InlineFragment, Selection};
use tree_type_members::FieldDefinition;

/// The set on the type of that name of those selections that have a meaning on it, each with its meaning; the others are
/// told.
pub(crate) fn type_set(
    typing: &Typing<'_>,
    type_name: &Name,
    selections: &[Selection],
    faults: &mut Vec<(Option<SourceSpan>, BuildError)>,
) -> Result<typed::SelectionSet, AllocError>
    ensures kept { IfOk result (λ s. IsKeptSet (meanings_for typing.now) type_name.now.text (given_set selections.now) (typed_set_tree s)) }
    ensures ty { IfOk result (λ s. set_type (typed_set_tree s) ≡ name_tree type_name.now) }
    ensures defined { IfOk result (λ s. IsDefinedSet (schema_for typing.now) (typed_set_tree s)) }
    ensures faults { OnOk result (Tells faults.old faults.new (set_faults (meanings_for typing.now) (given_set selections.now) type_name.now.text)) }
{
    let ty = type_under(typing.schema, type_name);
    type_set_on(typing, type_name, ty, selections, faults)
}

/// The same for a type that was looked up already: that is done once for each set.
#[cycle(typing)]
fn type_set_on(
    typing: &Typing<'_>,
    type_name: &Name,
    ty: Option<&ExtendedType>,
    selections: &[Selection],
    faults: &mut Vec<(Option<SourceSpan>, BuildError)>,
) -> Result<typed::SelectionSet, AllocError>
    requires { IsTypeUnder (schema_for typing.now) type_name.now.text ty }
    ensures kept { IfOk result (λ s. IsKeptSet (meanings_for typing.now) type_name.now.text (given_set selections.now) (typed_set_tree s)) }
    ensures ty { IfOk result (λ s. set_type (typed_set_tree s) ≡ name_tree type_name.now) }
    ensures defined { IfOk result (λ s. IsDefinedSet (schema_for typing.now) (typed_set_tree s)) }
    ensures faults { OnOk result (Tells faults.old faults.new (set_faults (meanings_for typing.now) (given_set selections.now) type_name.now.text)) }
{
    let mut kept = Vec::new(typing.alloc);
    for selection in selections {
        type_selection(typing, type_name, ty, selection, &mut kept, faults)?;
    }
    Ok(typed::SelectionSet {
        ty: type_name.clone()?,
        selections: kept,
    })
}

/// Keeps the selection with its meaning on the type, or tells that it has none.
#[cycle(typing)]
#[tactic(auto, using(tree_operations::proofs::SelectionTrees::selection_tree_rules))]
fn type_selection(
    typing: &Typing<'_>,
    parent: &Name,
    ty: Option<&ExtendedType>,
    selection: &Selection,
    out: &mut Vec<typed::Selection>,
    faults: &mut Vec<(Option<SourceSpan>, BuildError)>,
) -> Result<(), AllocError>
    requires { IsTypeUnder (schema_for typing.now) parent.now.text ty }
    ensures kept { OnOk result (Keeps out.old out.new (kept (meanings_for typing.now) (selection_tree selection.now) parent.now.text)) }
    ensures defined { OnOk result (StayDefined (schema_for typing.now) parent.now.text out.old out.new) }
    ensures faults { OnOk result (Tells faults.old faults.new (selection_faults (meanings_for typing.now) (selection_tree selection.now) parent.now.text)) }
{
    match selection {
        Selection::Field(field) => type_field(typing, parent, ty, field, out, faults),
        // Kept whether or not its fragment exists: that is a rule on typed documents.
        Selection::FragmentSpread(spread) => keep_spread(typing.alloc, spread, out),
        Selection::InlineFragment(inline) => type_inline(typing, parent, ty, inline, out, faults),
    }
}

/// Keeps the field with its definition on the type, or tells that it has none (section 5.3.1).
#[cycle(typing)]
fn type_field(
    typing: &Typing<'_>,
    parent: &Name,
    ty: Option<&ExtendedType>,
    field: &Node<Field>,
    out: &mut Vec<typed::Selection>,
    faults: &mut Vec<(Option<SourceSpan>, BuildError)>,
) -> Result<(), AllocError>
    requires { IsTypeUnder (schema_for typing.now) parent.now.text ty }
    ensures kept { OnOk result (Keeps out.old out.new (kept (meanings_for typing.now) (field_node_tree field.now) parent.now.text)) }
    ensures defined { OnOk result (StayDefined (schema_for typing.now) parent.now.text out.old out.new) }
    ensures faults { OnOk result (Tells faults.old faults.new (selection_faults (meanings_for typing.now) (field_node_tree field.now) parent.now.text)) }
{
    let tree = field.content();
    // A leaf has its own function: nothing that it calls recurs.
    if tree.selection_set.is_empty() {
        return type_leaf(typing, parent, ty, field, out, faults);
    }
    match definition_of(typing.alloc, typing.schema, parent, ty, &tree.name)? {
        // Its selections are not judged, as the type of its values is not known.
        None => undefined_field(field.location(), parent, &tree.name, faults),
        Some(definition) => type_defined_field(typing, definition, field, out, faults),
    }
}

/// Keeps a field that selects nothing with its definition on the type, or tells that it has none (section 5.3.1).
#[inline(never)]
fn type_leaf(
    typing: &Typing<'_>,
    parent: &Name,
    ty: Option<&ExtendedType>,
    field: &Node<Field>,
    out: &mut Vec<typed::Selection>,
    faults: &mut Vec<(Option<SourceSpan>, BuildError)>,
) -> Result<(), AllocError>
    requires found { IsTypeUnder (schema_for typing.now) parent.now.text ty }
    requires leaf { (content field.now).selection_set.items ≡ [] }
    ensures kept { OnOk result (Keeps out.old out.new (kept (meanings_for typing.now) (field_node_tree field.now) parent.now.text)) }
    ensures defined { OnOk result (StayDefined (schema_for typing.now) parent.now.text out.old out.new) }
    ensures faults { OnOk result (Tells faults.old faults.new (selection_faults (meanings_for typing.now) (field_node_tree field.now) parent.now.text)) }
{
    let name = &field.content().name;
    match definition_of(typing.alloc, typing.schema, parent, ty, name)? {
        None => undefined_field(field.location(), parent, name, faults),
        Some(definition) => {
            let set = empty_set(typing.alloc, inner_name(&definition))?;
            keep_field(typing.alloc, definition, field, set, out)
        }
    }
}

/// The empty set on the type.
fn empty_set(alloc: Global, type_name: &Name) -> Result<typed::SelectionSet, AllocError>
    ensures kept { IfOk result (λ s. meant_of_set (typed_set_tree s) ≡ set_on type_name.now.text []) }
    ensures defined { IfOk result (λ s. (t : Option (SchemaTree Place)) → IsDefinedSet t (typed_set_tree s)) }
{
    Ok(typed::SelectionSet {
        ty: type_name.clone()?,
        selections: Vec::new(alloc),
    })
}

/// Drops a definition.
// It is not inlined, so that the drop takes no stack at each level of selections.
#[inline(never)]
fn drop_definition(_definition: Node<FieldDefinition>) {}

/// Keeps the field with its definition, or tells that it selects from a leaf (section 5.3.3).
#[cycle(typing)]
#[inline(never)]
fn type_defined_field(
    typing: &Typing<'_>,
    definition: Node<FieldDefinition>,
    field: &Node<Field>,
    out: &mut Vec<typed::Selection>,
    faults: &mut Vec<(Option<SourceSpan>, BuildError)>,
) -> Result<(), AllocError>
    ensures kept { OnOk result (Keeps out.old out.new (kept_defined (meanings_for typing.now) (definition_view definition) field.now)) }
    ensures defined { OnOk result (StayDefinedWith (schema_for typing.now) definition field.now out.old out.new) }
    ensures faults { OnOk result (Tells faults.old faults.new (defined_faults (meanings_for typing.now) (definition_view definition) field.now)) }
{
    let inner = inner_name(&definition);
    let ty = type_under(typing.schema, inner);
    let selections = &field.content().selection_set;
    if !may_select(ty, selections) {
        // If no field is kept, the definition is dropped explicitly: `drop_definition` is not inlined.
        let told = subselection_on_leaf(typing.schema, field.location(), inner, faults);
        drop_definition(definition);
        return told;
    }
    match type_set_on(typing, inner, ty, selections, faults) {
        Ok(set) => keep_field(typing.alloc, definition, field, set, out),
        Err(error) => {
            drop_definition(definition);
            Err(error)
        }
    }
}

/// Keeps the inline fragment with its set, on the type of its condition or else on that around it, or tells that the
/// type of its condition does not exist (section 5.5.1.2).
#[cycle(typing)]
#[inline(never)]
fn type_inline(
    typing: &Typing<'_>,
    parent: &Name,
    ty: Option<&ExtendedType>,
    inline: &Node<InlineFragment>,
    out: &mut Vec<typed::Selection>,
    faults: &mut Vec<(Option<SourceSpan>, BuildError)>,
) -> Result<(), AllocError>
    requires { IsTypeUnder (schema_for typing.now) parent.now.text ty }
    ensures kept { OnOk result (Keeps out.old out.new (kept (meanings_for typing.now) (inline_node_tree inline.now) parent.now.text)) }
    ensures defined { OnOk result (StayDefined (schema_for typing.now) parent.now.text out.old out.new) }
    ensures faults { OnOk result (Tells faults.old faults.new (selection_faults (meanings_for typing.now) (inline_node_tree inline.now) parent.now.text)) }
{
    let selections = &inline.content().selection_set;
    match &inline.content().type_condition {
        None => {
            let set = type_set_on(typing, parent, ty, selections, faults)?;
            keep_inline(typing.alloc, inline, set, out)
        }
        Some(condition) => {
            if !has_type(typing.schema, condition) {
                return undefined_type_in_inline_fragment_type_condition(
                    inline.location(),
                    condition,
                    faults,
                );
            }
            let found = type_under(typing.schema, condition);
            let set = type_set_on(typing, condition, found, selections, faults)?;
            keep_inline(typing.alloc, inline, set, out)
        }
    }
}
