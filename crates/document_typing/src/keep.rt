//! Selections with their meaning, added after those that are kept. None of these functions is inlined, so that their locals
//! take no stack at each level of selections.
ghost use Rattle.std.specs.Prelude.{[], ◌∷◌, ℕ, List, Option, OnOk};
ghost use Rattle.graphql_names.specs.Placed.{Place};
ghost use Rattle.schema_types.specs.SchemaTree.{SchemaTree};
ghost use Rattle.document_typed_selections.specs.TypedTree.{typed_set_tree};
ghost use Rattle.document_typing.specs.DefinedByPlace.{IsDefinedSet};
ghost use Rattle.document_typing.specs.Telling.{Keeps, StayDefined, StayDefinedAround, meant_field, meant_spread, meant_inline};

use document_typed_selections as typed;
use graphql_names::Node;
use std::alloc::{AllocError, Global};
use tree_literals::{copies_of_four, copies_of_two};
use tree_operations::{Field, FragmentSpread, InlineFragment};
use tree_type_members::FieldDefinition;

/// Keeps a field with its definition, which it shares with the schema, and its set. It shares arguments and directives
/// with the tree.
#[tactic(auto, using(document_typed_selections::proofs::TypedTrees::typed_tree_rules))]
#[inline(never)]
pub(crate) fn keep_field(
    alloc: Global,
    definition: Node<FieldDefinition>,
    field: &Node<Field>,
    set: typed::SelectionSet,
    kept: &mut Vec<typed::Selection>,
) -> Result<(), AllocError>
    ensures meant { OnOk result (Keeps kept.old kept.new (meant_field definition field.now set ∷ [])) }
    ensures defined { OnOk result (StayDefinedAround definition field.now set kept.old kept.new) }
{
    let tree = field.content();
    let (alias, name, arguments, directives) = copies_of_four(
        &tree.alias,
        &tree.name,
        &tree.arguments,
        &tree.directives,
    )?;
    let typed = typed::Field {
        definition,
        alias,
        name,
        arguments,
        directives,
        selection_set: set,
    };
    kept.push(typed::Selection::Field(field.same_location(alloc, typed)?))?;
    Ok(())
}

/// Keeps a spread.
#[tactic(auto, using(document_typed_selections::proofs::TypedTrees::typed_tree_rules))]
#[inline(never)]
pub(crate) fn keep_spread(
    alloc: Global,
    spread: &Node<FragmentSpread>,
    kept: &mut Vec<typed::Selection>,
) -> Result<(), AllocError>
    ensures meant { OnOk result (Keeps kept.old kept.new (meant_spread spread.now ∷ [])) }
    ensures defined { OnOk result ((s : Option (SchemaTree Place)) (t : List ℕ) → StayDefined s t kept.old kept.new) }
{
    let tree = spread.content();
    let (fragment_name, directives) = copies_of_two(&tree.fragment_name, &tree.directives)?;
    let typed = typed::FragmentSpread {
        fragment_name,
        directives,
    };
    kept.push(typed::Selection::FragmentSpread(spread.same_location(alloc, typed)?))?;
    Ok(())
}

/// Keeps an inline fragment with its set.
#[tactic(auto, using(document_typed_selections::proofs::TypedTrees::typed_tree_rules))]
#[inline(never)]
pub(crate) fn keep_inline(
    alloc: Global,
    inline: &Node<InlineFragment>,
    set: typed::SelectionSet,
    kept: &mut Vec<typed::Selection>,
) -> Result<(), AllocError>
    ensures meant { OnOk result (Keeps kept.old kept.new (meant_inline inline.now set ∷ [])) }
    ensures defined { OnOk result ((s : Option (SchemaTree Place)) (t : List ℕ) → IsDefinedSet s (typed_set_tree set) → StayDefined s t kept.old kept.new) }
{
    let tree = inline.content();
    let (type_condition, directives) = copies_of_two(&tree.type_condition, &tree.directives)?;
    let typed = typed::InlineFragment {
        type_condition,
        directives,
        selection_set: set,
    };
    kept.push(typed::Selection::InlineFragment(inline.same_location(alloc, typed)?))?;
    Ok(())
}
