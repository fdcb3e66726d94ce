//! Fragments (section 2.8).
ghost use Rattle.graphql_names.specs.Placed.{node_tree};
ghost use Rattle.tree_operations.specs.OperationTree.{fragment_tree};
ghost use Rattle.read_grammar.specs.OperationReading as reading;
ghost use Rattle.read_grammar.specs.Reading as read;
ghost use Rattle.read_grammar.specs.Reading.{Reads};
ghost use Rattle.read_operations.specs.Meanings.{in_file};
ghost use Rattle.read_operations.specs.OperationSteps as steps;
ghost use Rattle.read_operations.specs.PartViews.{condition_and_set_view};

use crate::condition::{fragment_name, type_condition};
use crate::selection_list::directives_and_set;
use crate::{begin, directives_or_none, expect, since};
use graphql_names::{FileId, Name, Node};
use read_grammar::ParseError;
use read_tokens::{Terminal, TokenCursor};
use std::alloc::Global;
use tree_directives::DirectiveList;
use tree_operations::{FragmentDefinition, Selection};

/// `TypeCondition Directives? SelectionSet`
fn condition_and_set(
    alloc: Global,
    tokens: &mut TokenCursor<'_>,
    file: FileId,
    depth: usize,
) -> Result<(Name, (Option<DirectiveList>, Vec<Selection>)), ParseError>
    ensures { Reads condition_and_set_view (steps.condition_and_set (in_file file) depth tokens.old) result tokens.new }
{
    let condition = type_condition(tokens, file)?;
    let following = directives_and_set(alloc, tokens, file, depth)?;
    Ok((condition, following))
}

/// FragmentDefinition: `"fragment" FragmentName TypeCondition Directives? SelectionSet`.
#[tactic(auto, unfolding(read_grammar::specs::OperationReading::fragment_definition))]
pub fn fragment_definition(
    alloc: Global,
    tokens: &mut TokenCursor<'_>,
    file: FileId,
    depth: usize,
) -> Result<FragmentDefinition, ParseError>
    ensures { Reads fragment_tree (reading.fragment_definition (in_file file) depth tokens.old) result tokens.new }
{
    expect(tokens, Terminal::Fragment)?;
    let name = fragment_name(tokens, file)?;
    let (type_condition, (directives, selection_set)) = condition_and_set(
        alloc, tokens, file, depth,
    )?;
    Ok(FragmentDefinition {
        name,
        type_condition,
        directives: directives_or_none(alloc, directives),
        selection_set,
    })
}

/// A fragment with its place.
pub fn placed_fragment(
    alloc: Global,
    tokens: &mut TokenCursor<'_>,
    file: FileId,
    depth: usize,
) -> Result<Node<FragmentDefinition>, ParseError>
    ensures { Reads (node_tree fragment_tree) (read.placed (in_file file) (reading.fragment_definition (in_file file) depth) tokens.old) result tokens.new }
{
    let begin = begin(tokens);
    let found = fragment_definition(alloc, tokens, file, depth)?;
    let place = since(tokens, file, begin);
    Ok(Node::new_parsed(alloc, found, place)?)
}
