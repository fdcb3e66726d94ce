//! Selections as they are written: without definitions and types. The functions that copy are not inlined, so that they take no
//! stack at each level of selections.
ghost use Rattle.std.specs.Prelude.{◌≡◌, IfOk};
ghost use Rattle.tree_operations.specs.SelectionTree.{selection_tree, selection_trees};
ghost use Rattle.document_typed_selections.specs.TypedTree.{typed_selection_tree, typed_set_tree};
ghost use Rattle.document_typed_selections.specs.TypedParts.{typed_field_node, typed_spread_node, typed_inline_node};
ghost use Rattle.document_typed_operations.specs.ToAst.{ast_selection, ast_set};
ghost use Rattle.document_typed_operations.specs.Writing.{field_with, inline_with};

use crate::written_node::{node_at, push_made};
use document_typed_selections::{Field, FragmentSpread, InlineFragment, Selection, SelectionSet};
use graphql_names::Node;
use std::alloc::{AllocError, Global};
use tree_literals::{copies_of_four, copies_of_two};
use tree_operations as ast;

/// The selections of a set as they are written; what they hold is shared.
#[cycle(writing)]
pub(crate) fn set_to_ast(
    alloc: Global,
    set: &SelectionSet,
) -> Result<Vec<ast::Selection>, AllocError>
    ensures { IfOk result (λ v. selection_trees selection_tree v.items ≡ ast_set (typed_set_tree set.now)) }
{
    let mut written = Vec::new(alloc);
    for selection in &set.selections {
        // Both `?` are in the helper, so that none is here while the list and a selection are owned.
        push_made(&mut written, selection_to_ast(alloc, selection))?;
    }
    Ok(written)
}

/// A selection as it is written.
#[cycle(writing)]
#[tactic(auto, using(document_typed_selections::proofs::TypedTrees::typed_tree_rules))]
fn selection_to_ast(alloc: Global, selection: &Selection) -> Result<ast::Selection, AllocError>
    ensures { IfOk result (λ s. selection_tree s ≡ ast_selection (typed_selection_tree selection.now)) }
{
    match selection {
        Selection::Field(field) => field_to_ast(alloc, field),
        Selection::FragmentSpread(spread) => spread_to_ast(alloc, spread),
        Selection::InlineFragment(inline) => inline_to_ast(alloc, inline),
    }
}

/// A field with its selections.
#[cycle(writing)]
fn field_to_ast(alloc: Global, node: &Node<Field>) -> Result<ast::Selection, AllocError>
    ensures { IfOk result (λ s. selection_tree s ≡ ast_selection (typed_field_node node.now)) }
{
    let selection_set = set_to_ast(alloc, &node.content().selection_set)?;
    field_with(alloc, node, selection_set)
}

/// A field with these selections.
#[inline(never)]
fn field_with(
    alloc: Global,
    node: &Node<Field>,
    selection_set: Vec<ast::Selection>,
) -> Result<ast::Selection, AllocError>
    ensures { IfOk result (λ s. selection_tree s ≡ field_with node.now selection_set) }
{
    let field = node.content();
    let (alias, name, arguments, directives) = copies_of_four(
        &field.alias,
        &field.name,
        &field.arguments,
        &field.directives,
    )?;
    let written = ast::Field {
        alias,
        name,
        arguments,
        directives,
        selection_set,
    };
    Ok(ast::Selection::Field(node_at(alloc, node, written)?))
}

/// An inline fragment with its selections.
#[cycle(writing)]
fn inline_to_ast(alloc: Global, node: &Node<InlineFragment>) -> Result<ast::Selection, AllocError>
    ensures { IfOk result (λ s. selection_tree s ≡ ast_selection (typed_inline_node node.now)) }
{
    let selection_set = set_to_ast(alloc, &node.content().selection_set)?;
    inline_with(alloc, node, selection_set)
}

/// An inline fragment with these selections.
#[inline(never)]
fn inline_with(
    alloc: Global,
    node: &Node<InlineFragment>,
    selection_set: Vec<ast::Selection>,
) -> Result<ast::Selection, AllocError>
    ensures { IfOk result (λ s. selection_tree s ≡ inline_with node.now selection_set) }
{
    let inline = node.content();
    let (type_condition, directives) = copies_of_two(&inline.type_condition, &inline.directives)?;
    let written = ast::InlineFragment {
        type_condition,
        directives,
        selection_set,
    };
    Ok(ast::Selection::InlineFragment(node_at(alloc, node, written)?))
}

/// A spread.
#[inline(never)]
fn spread_to_ast(alloc: Global, node: &Node<FragmentSpread>) -> Result<ast::Selection, AllocError>
    ensures { IfOk result (λ s. selection_tree s ≡ ast_selection (typed_spread_node node.now)) }
{
    let spread = node.content();
    let (fragment_name, directives) = copies_of_two(&spread.fragment_name, &spread.directives)?;
    let written = ast::FragmentSpread {
        fragment_name,
        directives,
    };
    Ok(ast::Selection::FragmentSpread(node_at(alloc, node, written)?))
}
