//! The names of the variables in values, arguments, directives and selections.
ghost use Rattle.std.specs.Prelude.{◌≡◌, map, OnOk};
ghost use Rattle.tree_literals.specs.ValueTree.{value_tree, item_trees, entry_trees};
ghost use Rattle.graphql_names.specs.Placed.{node_tree};
ghost use Rattle.tree_operations.specs.DirectiveTree.{argument_tree, directives_tree};
ghost use Rattle.document_typed_selections.specs.TypedTree.{typed_selection_tree};
ghost use Rattle.rule_document_definitions.specs.in_spec_document.MeantTree.{meant};
ghost use Rattle.rule_reach.specs.NotedNames.{noted_names};
ghost use Rattle.rule_reach.specs.UsedNames.{with_value, with_items, with_entries, with_arguments, with_directives, with_selection};

use crate::noted_names::note_name;
use document_typed_selections::Selection;
use graphql_names::{Name, Node};
use indexmap::IndexSet;
use std::alloc::AllocError;
use tree_literals::Value;
use tree_operations::{Argument, DirectiveList};

/// Adds the names of the variables in a value, at any depth.
#[cycle(used)]
#[tactic(auto, using(tree_literals::proofs::Trees::value_tree_rules))]
fn note_in_value(value: &Value, names: &mut IndexSet<Name>) -> Result<(), AllocError>
    ensures { OnOk result (noted_names names.new ≡ with_value (noted_names names.old) (value_tree value.now)) }
{
    match value {
        Value::Variable(name) => note_name(name, names),
        Value::List(items) => note_in_items(items, names),
        Value::Object(entries) => note_in_entries(entries, names),
        Value::Null
        | Value::Enum(_)
        | Value::String(_)
        | Value::Float(_)
        | Value::Int(_)
        | Value::Boolean(_) => Ok(()),
    }
}

#[cycle(used)]
fn note_in_items(items: &[Node<Value>], names: &mut IndexSet<Name>) -> Result<(), AllocError>
    ensures { OnOk result (noted_names names.new ≡ with_items (noted_names names.old) (item_trees value_tree items.now)) }
{
    for item in items {
        note_in_value(item.content(), names)?;
    }
    Ok(())
}

#[cycle(used)]
fn note_in_entries(
    entries: &[(Name, Node<Value>)],
    names: &mut IndexSet<Name>,
) -> Result<(), AllocError>
    ensures { OnOk result (noted_names names.new ≡ with_entries (noted_names names.old) (entry_trees value_tree entries.now)) }
{
    for entry in entries {
        note_in_value(entry.1.content(), names)?;
    }
    Ok(())
}

/// Adds the names of the variables in the value of each argument.
fn note_in_arguments(given: &[Node<Argument>], names: &mut IndexSet<Name>) -> Result<(), AllocError>
    ensures { OnOk result (noted_names names.new ≡ with_arguments (noted_names names.old) (map (node_tree argument_tree) given.now)) }
{
    for argument in given {
        note_in_value(argument.content().value.content(), names)?;
    }
    Ok(())
}

/// Adds the names of the variables in the arguments of each directive.
pub fn note_in_directives(
    directives: &DirectiveList,
    names: &mut IndexSet<Name>,
) -> Result<(), AllocError>
    ensures { OnOk result (noted_names names.new ≡ with_directives (noted_names names.old) (directives_tree directives.now)) }
{
    for directive in &directives.0 {
        note_in_arguments(&directive.content().arguments, names)?;
    }
    Ok(())
}

/// Adds the names of the variables in a selection itself: in its directives, and in the arguments of a field.
#[tactic(auto, using(document_typed_selections::proofs::TypedTrees::typed_tree_rules))]
pub fn note_in_selection(
    selection: &Selection,
    names: &mut IndexSet<Name>,
) -> Result<(), AllocError>
    ensures { OnOk result (noted_names names.new ≡ with_selection (noted_names names.old) (meant (typed_selection_tree selection.now))) }
{
    match selection {
        Selection::Field(field) => {
            note_in_arguments(&field.content().arguments, names)?;
            note_in_directives(&field.content().directives, names)
        }
        Selection::FragmentSpread(spread) => {
            note_in_directives(&spread.content().directives, names)
        }
        Selection::InlineFragment(inline) => {
            note_in_directives(&inline.content().directives, names)
        }
    }
}
