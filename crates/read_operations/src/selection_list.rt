//! Selections (sections 2.4, 2.5 and 2.8). Functions with large locals are not inlined, so that a level of selections takes
//! only the stack of its own kind.
ghost use Rattle.std.specs.Prelude.{◌≡◌, map};
ghost use Rattle.std.specs.Option.{option_map};
ghost use Rattle.tree_directives.specs.DirectiveTree.{directives_tree};
ghost use Rattle.tree_operations.specs.SelectionTree.{selection_tree, selection_trees};
ghost use Rattle.read_grammar.specs.Begins as begins;
ghost use Rattle.read_grammar.specs.OperationReading as reading;
ghost use Rattle.read_grammar.specs.Reading as read;
ghost use Rattle.read_grammar.specs.Reading.{Reads};
ghost use Rattle.read_operations.specs.Meanings.{in_file};
ghost use Rattle.read_operations.specs.SelectionSteps as steps;
ghost use Rattle.read_operations.specs.PartViews.{set_view};

use crate::condition::next_is_fragment_name;
use crate::selection_parts::{
    begins_selection, field_head, field_with, inline_head, inline_with, placed_spread,
};
use crate::{begin, expect, next_is, next_is_name, open, optional_directives, since};
use graphql_names::FileId;
use read_grammar::ParseError;
use read_tokens::{Terminal, TokenCursor};
use std::alloc::Global;
use tree_directives::DirectiveList;
use tree_operations::Selection;

/// SelectionSet, or nothing.
#[cycle(selection)]
fn optional_selection_set(
    alloc: Global,
    tokens: &mut TokenCursor<'_>,
    file: FileId,
    depth: usize,
) -> Result<Option<Vec<Selection>>, ParseError>
    ensures { Reads set_view (steps.optional_set (in_file file) depth tokens.old) result tokens.new }
{
    if !next_is(tokens, Terminal::OpenBrace) {
        return Ok(None);
    }
    Ok(Some(selection_set(alloc, tokens, file, depth)?))
}

/// Field: `Alias? Name Arguments? Directives? SelectionSet?`, with its place.
// What comes before the selections is read by a call of its own, and `field_with` takes it together with the result of reading
// the selections: nothing large is dropped here, so that it is on the stack only once.
#[cycle(selection)]
#[inline(never)]
fn placed_field(
    alloc: Global,
    tokens: &mut TokenCursor<'_>,
    file: FileId,
    depth: usize,
) -> Result<Selection, ParseError>
    ensures { Reads selection_tree (reading.field (in_file file) depth (reading.selection_set (in_file file) depth) tokens.old) result tokens.new }
{
    let begin = begin(tokens);
    let head = field_head(alloc, tokens, file, depth)?;
    let selections = optional_selection_set(alloc, tokens, file, depth);
    let place = since(tokens, file, begin);
    field_with(alloc, place, head, selections)
}

/// InlineFragment whose dots have been read: `TypeCondition? Directives? SelectionSet`.
// Split into calls as `placed_field` is.
#[cycle(selection)]
#[inline(never)]
fn placed_inline(
    alloc: Global,
    tokens: &mut TokenCursor<'_>,
    file: FileId,
    begin: usize,
    depth: usize,
) -> Result<Selection, ParseError>
    ensures { Reads selection_tree (steps.inline_since (in_file file) begin depth (reading.selection_set (in_file file) depth) tokens.old) result tokens.new }
{
    let head = inline_head(alloc, tokens, file, depth)?;
    let selections = selection_set(alloc, tokens, file, depth);
    let place = since(tokens, file, begin);
    inline_with(alloc, place, head, selections)
}

/// FragmentSpread or InlineFragment: what begins with `...`.
#[cycle(selection)]
fn spread_or_inline(
    alloc: Global,
    tokens: &mut TokenCursor<'_>,
    file: FileId,
    depth: usize,
) -> Result<Selection, ParseError>
    ensures { Reads selection_tree (steps.spread_or_inline (in_file file) depth (reading.selection_set (in_file file) depth) tokens.old) result tokens.new }
{
    let begin = begin(tokens);
    expect(tokens, Terminal::Spread)?;
    if next_is_fragment_name(tokens) {
        return placed_spread(alloc, tokens, file, begin, depth);
    }
    placed_inline(alloc, tokens, file, begin, depth)
}

/// Selection: Field, FragmentSpread or InlineFragment.
#[cycle(selection)]
fn selection(
    alloc: Global,
    tokens: &mut TokenCursor<'_>,
    file: FileId,
    depth: usize,
) -> Result<Selection, ParseError>
    ensures { Reads selection_tree (reading.selection (in_file file) depth (reading.selection_set (in_file file) depth) tokens.old) result tokens.new }
{
    if next_is_name(tokens) {
        return placed_field(alloc, tokens, file, depth);
    }
    spread_or_inline(alloc, tokens, file, depth)
}

/// One or more selections.
#[cycle(selection)]
fn some_selections(
    alloc: Global,
    tokens: &mut TokenCursor<'_>,
    file: FileId,
    depth: usize,
) -> Result<Vec<Selection>, ParseError>
    ensures { Reads (λ v. map selection_tree v.items) (steps.some_selections (in_file file) depth tokens.old) result tokens.new }
{
    if !begins_selection(tokens) {
        return Err(ParseError::Unexpected);
    }
    let mut found = Vec::new(alloc);
    'turns: while begins_selection(tokens) {
        found.push(selection(alloc, tokens, file, depth)?)?;
    }
    Ok(found)
}

/// SelectionSet: `"{" Selection+ "}"`.
#[cycle(selection)]
pub fn selection_set(
    alloc: Global,
    tokens: &mut TokenCursor<'_>,
    file: FileId,
    depth: usize,
) -> Result<Vec<Selection>, ParseError>
    ensures { Reads (λ v. selection_trees selection_tree v.items) (reading.selection_set (in_file file) depth tokens.old) result tokens.new }
{
    open(tokens, Terminal::OpenBrace, depth)?;
    let found = some_selections(alloc, tokens, file, depth - 1)?;
    expect(tokens, Terminal::CloseBrace)?;
    Ok(found)
}

/// `Directives? SelectionSet`
pub fn directives_and_set(
    alloc: Global,
    tokens: &mut TokenCursor<'_>,
    file: FileId,
    depth: usize,
) -> Result<(Option<DirectiveList>, Vec<Selection>), ParseError>
    ensures { Reads (λ x. (option_map directives_tree x.0, selection_trees selection_tree x.1.items)) (steps.directives_and_set (in_file file) depth (reading.selection_set (in_file file) depth) tokens.old) result tokens.new }
{
    let directives = optional_directives(alloc, tokens, file, false, depth)?;
    let selections = selection_set(alloc, tokens, file, depth)?;
    Ok((directives, selections))
}

/// `Selection+`: selections without braces.
#[tactic(auto, unfolding(read_grammar::specs::OperationReading::selections, read_grammar::specs::OperationReading::selection_list))]
pub fn selections(
    alloc: Global,
    tokens: &mut TokenCursor<'_>,
    file: FileId,
    depth: usize,
) -> Result<Vec<Selection>, ParseError>
    ensures { Reads (λ v. selection_trees selection_tree v.items) (reading.selections (in_file file) depth tokens.old) result tokens.new }
{
    let found = some_selections(alloc, tokens, file, depth)?;
    Ok(found)
}
