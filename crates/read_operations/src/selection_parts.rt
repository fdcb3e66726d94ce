//! Parts of selections that hold no selections (sections 2.4, 2.5, 2.7 and 2.8).
ghost use Rattle.std.specs.Prelude.{◌≡◌, Some, unwrap_or};
ghost use Rattle.std.specs.Option.{option_map};
ghost use Rattle.read_tokens.specs.Input as input;
ghost use Rattle.graphql_names.specs.Placed.{name_tree};
ghost use Rattle.tree_operations.specs.SelectionTree.{selection_tree, selection_trees, no_selections};
ghost use Rattle.read_grammar.specs.Begins as begins;
ghost use Rattle.read_grammar.specs.Kinds as kinds;
ghost use Rattle.read_grammar.specs.OperationReading as reading;
ghost use Rattle.read_grammar.specs.Reading as read;
ghost use Rattle.read_grammar.specs.Reading.{Reads};
ghost use Rattle.read_operations.specs.Meanings.{in_file};
ghost use Rattle.read_operations.specs.SelectionSteps as steps;
ghost use Rattle.read_operations.specs.PartViews.{Ends, set_view, selections_view, field_head_view, inline_head_view};

use crate::condition::{fragment_name, type_condition};
use crate::{
    arguments_or_none, directives_or_none, expect, name, next_is, next_is_name, optional_arguments,
    optional_directives, since,
};
use graphql_names::{FileId, Name, Node, SourceSpan};
use read_grammar::ParseError;
use read_tokens::{Terminal, TokenCursor};
use std::alloc::Global;
use tree_directives::{Argument, DirectiveList};
use tree_operations::{Field, FragmentSpread, InlineFragment, Selection};

/// Whether a selection may begin with the next token.
pub fn begins_selection(tokens: &TokenCursor<'_>) -> bool
    ensures { result ≡ kinds.next_is begins.begins_selection (input.next tokens.now) }
{
    next_is_name(tokens) || next_is(tokens, Terminal::Spread)
}

/// `(Name ":")? Name`: an alias, if a colon follows the first name, and a name.
#[tactic(auto, unfolding(read_grammar::specs::OperationReading::alias_and_name))]
pub fn alias_and_name(
    tokens: &mut TokenCursor<'_>,
    file: FileId,
) -> Result<(Option<Name>, Name), ParseError>
    ensures { Reads steps.alias_view (reading.alias_and_name (in_file file) tokens.old) result tokens.new }
{
    let first = name(tokens, file)?;
    if !next_is(tokens, Terminal::Colon) {
        return Ok((None, first));
    }
    expect(tokens, Terminal::Colon)?;
    let second = name(tokens, file)?;
    Ok((Some(first), second))
}

/// TypeCondition, or nothing.
fn optional_condition(
    tokens: &mut TokenCursor<'_>,
    file: FileId,
) -> Result<Option<Name>, ParseError>
    ensures { Reads (option_map name_tree) (read.try kinds.is_on (reading.type_condition (in_file file)) tokens.old) result tokens.new }
{
    if !next_is(tokens, Terminal::On) {
        return Ok(None);
    }
    Ok(Some(type_condition(tokens, file)?))
}

/// `FragmentName Directives?`
fn spread(
    alloc: Global,
    tokens: &mut TokenCursor<'_>,
    file: FileId,
    depth: usize,
) -> Result<FragmentSpread, ParseError>
    ensures { Reads steps.spread_view (steps.spread_parts (in_file file) depth tokens.old) result tokens.new }
{
    let fragment_name = fragment_name(tokens, file)?;
    let directives = optional_directives(alloc, tokens, file, false, depth)?;
    Ok(FragmentSpread {
        fragment_name,
        directives: directives_or_none(alloc, directives),
    })
}

/// FragmentSpread whose dots have been read.
// Not inlined, so that its locals take no stack at each level of selections.
#[inline(never)]
pub fn placed_spread(
    alloc: Global,
    tokens: &mut TokenCursor<'_>,
    file: FileId,
    begin: usize,
    depth: usize,
) -> Result<Selection, ParseError>
    ensures { Reads selection_tree (steps.spread_since (in_file file) begin depth tokens.old) result tokens.new }
{
    let found = spread(alloc, tokens, file, depth)?;
    let place = since(tokens, file, begin);
    Ok(Selection::FragmentSpread(Node::new_parsed(alloc, found, place)?))
}

/// What a field has before its selections.
pub type FieldHead = (
    (Option<Name>, Name),
    (Option<Vec<Node<Argument>>>, Option<DirectiveList>),
);

/// `Alias? Name Arguments? Directives?`
// This function and those below are not inlined, so that their locals take no stack at each level of selections.
#[inline(never)]
pub fn field_head(
    alloc: Global,
    tokens: &mut TokenCursor<'_>,
    file: FileId,
    depth: usize,
) -> Result<FieldHead, ParseError>
    ensures { Reads field_head_view (steps.field_head (in_file file) depth tokens.old) result tokens.new }
{
    let names = alias_and_name(tokens, file)?;
    let arguments = optional_arguments(alloc, tokens, file, false, depth)?;
    let directives = optional_directives(alloc, tokens, file, false, depth)?;
    Ok((names, (arguments, directives)))
}

/// The field of this head and these selections, at a place; or why the selections are not read.
#[inline(never)]
pub fn field_with(
    alloc: Global,
    place: SourceSpan,
    head: FieldHead,
    selections: Result<Option<Vec<Selection>>, ParseError>,
) -> Result<Selection, ParseError>
    ensures { Ends set_view (steps.field_with (Some place) (field_head_view head)) selections result }
{
    let selections = selections?;
    let ((alias, name), (arguments, directives)) = head;
    let found = Field {
        alias,
        name,
        arguments: arguments_or_none(alloc, arguments),
        directives: directives_or_none(alloc, directives),
        selection_set: selections_or_none(alloc, selections),
    };
    Ok(Selection::Field(Node::new_parsed(alloc, found, place)?))
}

/// What an inline fragment has before its selections.
pub type InlineHead = (Option<Name>, Option<DirectiveList>);

/// `TypeCondition? Directives?`
#[inline(never)]
pub fn inline_head(
    alloc: Global,
    tokens: &mut TokenCursor<'_>,
    file: FileId,
    depth: usize,
) -> Result<InlineHead, ParseError>
    ensures { Reads inline_head_view (steps.inline_head (in_file file) depth tokens.old) result tokens.new }
{
    let type_condition = optional_condition(tokens, file)?;
    let directives = optional_directives(alloc, tokens, file, false, depth)?;
    Ok((type_condition, directives))
}

/// The inline fragment of this head and these selections, at a place; or why the selections are not read.
#[inline(never)]
pub fn inline_with(
    alloc: Global,
    place: SourceSpan,
    head: InlineHead,
    selections: Result<Vec<Selection>, ParseError>,
) -> Result<Selection, ParseError>
    ensures { Ends selections_view (steps.inline_with (Some place) (inline_head_view head)) selections result }
{
    let selection_set = selections?;
    let (type_condition, directives) = head;
    let found = InlineFragment {
        type_condition,
        directives: directives_or_none(alloc, directives),
        selection_set,
    };
    Ok(Selection::InlineFragment(Node::new_parsed(alloc, found, place)?))
}

/// The selections; none if they are left out.
pub fn selections_or_none(alloc: Global, found: Option<Vec<Selection>>) -> Vec<Selection>
    ensures { selection_trees selection_tree result.items ≡ unwrap_or (option_map (λ v. selection_trees selection_tree v.items) found) no_selections }
{
    match found {
        None => Vec::new(alloc),
        Some(selections) => selections,
    }
}
