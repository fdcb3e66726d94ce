//! Uses in selections.
ghost use Rattle.std.specs.Prelude.{◌≡◌, ◌++◌, flat_map, OnOk};
ghost use Rattle.graphql_schema.specs.SchemaOf.{schema_tree};
ghost use Rattle.document_typed_selections.specs.TypedTree.{typed_selection_tree, typed_set_tree};
ghost use Rattle.spec_document.specs.MeantTree.{meant, meant_of_set};
ghost use Rattle.rule_warnings.specs.Told.{members_of, own_members, members_in, with_below, own_uses, selection_uses, set_uses};
ghost use Rattle.rule_warnings.specs.Telling.{Tells, waiting_members, field_uses_of, selection_uses_of};

use crate::arguments::{tell_directives, tell_given};
use crate::deprecated_use::DeprecatedUse;
use crate::owner::Owner;
use crate::tell::tell_use;
use document_typed_selections::{Field, Selection, SelectionSet};
use graphql_names::Name;
use rule_values::IndexedSchema;
use std::alloc::AllocError;
use tree_literals::NamedType;

/// Adds the use of a field that is selected on the type `parent`, and the uses in its arguments. Of one that the type does not have
/// there are none.
fn tell_field(
    schema: &IndexedSchema<'_>,
    parent: &Name,
    field: &Field,
    uses: &mut Vec<DeprecatedUse>,
) -> Result<(), AllocError>
    ensures { OnOk result (Tells uses.old uses.new (field_uses_of (schema_tree schema.now) parent.now field.now)) }
{
    let name = &field.name;
    match schema.schema().type_field(parent, name) {
        Err(_) => Ok(()),
        Ok(definition) => {
            let directives = &definition.node.content().directives;
            tell_use(Owner::OfField(parent), name, directives, uses)?;
            let defined = schema.arguments_of_field(parent, name, definition);
            let owner = Owner::OfFieldArgument(parent, name);
            tell_given(schema, owner, &defined, field.arguments.as_slice(), uses)
        }
    }
}

/// Adds the uses of a selection on the type `parent`, if it is a field, apart from those in its directives and its set.
fn tell_own(
    schema: &IndexedSchema<'_>,
    parent: &NamedType,
    selection: &Selection,
    uses: &mut Vec<DeprecatedUse>,
) -> Result<(), AllocError>
    ensures { OnOk result (Tells uses.old uses.new (own_uses (schema_tree schema.now) parent.now.text (meant (typed_selection_tree selection.now)))) }
{
    match selection.as_field() {
        None => Ok(()),
        Some(field) => tell_field(schema, parent, field.content(), uses),
    }
}

/// Adds the uses of a selection on the type `parent`, apart from those in its set.
fn tell_selection(
    schema: &IndexedSchema<'_>,
    parent: &NamedType,
    selection: &Selection,
    uses: &mut Vec<DeprecatedUse>,
) -> Result<(), AllocError>
    ensures { OnOk result (Tells uses.old uses.new (selection_uses_of (schema_tree schema.now) parent.now selection.now)) }
{
    tell_own(schema, parent, selection, uses)?;
    tell_directives(schema, selection.directives().0.as_slice(), uses)
}

/// Makes the selections of a set the next ones, in order.
fn push_members<'doc>(
    set: &'doc SelectionSet,
    waiting: &mut Vec<(&'doc NamedType, &'doc Selection)>,
) -> Result<(), AllocError>
    ensures { OnOk result (waiting_members waiting.new.items ≡ members_of (meant_of_set (typed_set_tree set.now)) ++ waiting_members waiting.old.items) }
{
    for index in (0..set.selections.len()).rev() {
        waiting.push((&set.ty, &set.selections[index]))?;
    }
    Ok(())
}

/// Makes the selections of a selection's own set the next ones. A spread has none.
#[tactic(auto, using(document_typed_selections::proofs::TypedTrees::typed_tree_rules))]
fn push_own_members<'doc>(
    selection: &'doc Selection,
    waiting: &mut Vec<(&'doc NamedType, &'doc Selection)>,
) -> Result<(), AllocError>
    ensures { OnOk result (waiting_members waiting.new.items ≡ own_members (meant (typed_selection_tree selection.now)) ++ waiting_members waiting.old.items) }
{
    match selection {
        Selection::Field(field) => push_members(&field.content().selection_set, waiting),
        Selection::FragmentSpread(_) => Ok(()),
        Selection::InlineFragment(inline) => push_members(&inline.content().selection_set, waiting),
    }
}

/// Adds the uses of the selections that wait, and of those at any depth in them. There is no recursion, so the stack does not
/// grow with the depth.
fn tell_waiting<'doc>(
    schema: &IndexedSchema<'_>,
    waiting: &mut Vec<(&'doc NamedType, &'doc Selection)>,
    uses: &mut Vec<DeprecatedUse>,
) -> Result<(), AllocError>
    ensures { OnOk result (Tells uses.old uses.new (flat_map (selection_uses (schema_tree schema.now)) (flat_map with_below (waiting_members waiting.old.items)))) }
{
    while let Some((parent, selection)) = waiting.pop() {
        tell_selection(schema, parent, selection, uses)?;
        push_own_members(selection, waiting)?;
    }
    Ok(())
}

/// Adds the uses of the selections of a set, at any depth, and of those that wait.
// It owns the list, so that its lifetime is that of the set: the borrow checker does not find it where the list is made.
fn tell_set_and<'doc>(
    schema: &IndexedSchema<'_>,
    set: &'doc SelectionSet,
    mut waiting: Vec<(&'doc NamedType, &'doc Selection)>,
    uses: &mut Vec<DeprecatedUse>,
) -> Result<(), AllocError>
    ensures { OnOk result (Tells uses.old uses.new (flat_map (selection_uses (schema_tree schema.now)) (members_in (meant_of_set (typed_set_tree set.now)) ++ flat_map with_below (waiting_members waiting.entry.items)))) }
{
    push_members(set, &mut waiting)?;
    tell_waiting(schema, &mut waiting, uses)
}

/// Adds the uses of the selections of a set, at any depth.
pub(crate) fn tell_set(
    schema: &IndexedSchema<'_>,
    set: &SelectionSet,
    uses: &mut Vec<DeprecatedUse>,
) -> Result<(), AllocError>
    ensures { OnOk result (Tells uses.old uses.new (set_uses (schema_tree schema.now) (meant_of_set (typed_set_tree set.now)))) }
{
    let waiting = Vec::new(*uses.allocator());
    tell_set_and(schema, set, waiting, uses)
}
