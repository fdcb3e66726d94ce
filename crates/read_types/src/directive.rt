//! Definitions of directives (section 3.13).
ghost use Rattle.std.specs.Prelude.{◌≡◌};
ghost use Rattle.std.specs.Option.{option_map};
ghost use Rattle.tree_directives.specs.DirectiveTree.{directive_definition_tree, directives_tree};
ghost use Rattle.read_grammar.specs.Kinds as kinds;
ghost use Rattle.read_grammar.specs.Reading as read;
ghost use Rattle.read_grammar.specs.Reading.{Reads};
ghost use Rattle.read_grammar.specs.TypeSystemReading as reading;
ghost use Rattle.read_operations.specs.Meanings.{in_file};
ghost use Rattle.read_types.specs.MemberSteps as steps;
ghost use Rattle.read_types.specs.MemberViews.{directive_rest_view};

use crate::input_value_list::{input_values_or_none, optional_arguments_definition};
use crate::location_list::directive_locations;
use graphql_names::{FileId, Node};
use read_operations::{ParseError, directives_or_none, expect, name, next_is, optional_directives};
use read_tokens::{Terminal, TokenCursor};
use std::alloc::Global;
use tree_directives::{
    DirectiveDefinition, DirectiveList, DirectiveLocation, InputValueDefinition,
};

/// `"directive" "@"`
fn directive_marks(tokens: &mut TokenCursor<'_>) -> Result<(), ParseError>
    ensures { Reads (λ x. (tt, tt)) (steps.directive_marks tokens.old) result tokens.new }
{
    expect(tokens, Terminal::Directive)?;
    expect(tokens, Terminal::At)?;
    Ok(())
}

/// `repeatable`, or nothing.
// `Some(())` rather than a `bool`, as an optional part of the grammar is an option.
fn optional_repeatable(tokens: &mut TokenCursor<'_>) -> Result<Option<()>, ParseError>
    ensures { Reads (λ x. x) (read.try kinds.is_repeatable (read.mark kinds.is_repeatable) tokens.old) result tokens.new }
{
    if !next_is(tokens, Terminal::Repeatable) {
        return Ok(None);
    }
    Ok(Some(expect(tokens, Terminal::Repeatable)?))
}

/// What follows the directives of a directive's definition: `"repeatable"? "on" DirectiveLocations`.
// Read in steps of two or three parts, so that few values are owned at each `?`.
fn directive_end(
    alloc: Global,
    tokens: &mut TokenCursor<'_>,
) -> Result<(Option<()>, Vec<DirectiveLocation>), ParseError>
    ensures { Reads (λ x. (x.0, (tt, x.1.items))) (steps.directive_end tokens.old) result tokens.new }
{
    let repeatable = optional_repeatable(tokens)?;
    expect(tokens, Terminal::On)?;
    let locations = directive_locations(alloc, tokens)?;
    Ok((repeatable, locations))
}

/// What follows the arguments of a directive's definition: `Directives? "repeatable"? "on" DirectiveLocations`,
/// without variables in the values.
fn directive_tail(
    alloc: Global,
    tokens: &mut TokenCursor<'_>,
    file: FileId,
    depth: usize,
) -> Result<(Option<DirectiveList>, Option<()>, Vec<DirectiveLocation>), ParseError>
    ensures { Reads (λ x. (option_map directives_tree x.0, (x.1, (tt, x.2.items)))) (steps.directive_tail (in_file file) depth tokens.old) result tokens.new }
{
    let directives = optional_directives(alloc, tokens, file, true, depth)?;
    let (repeatable, locations) = directive_end(alloc, tokens)?;
    Ok((directives, repeatable, locations))
}

/// What follows the name of a directive:
/// `ArgumentsDefinition? Directives? "repeatable"? "on" DirectiveLocations`.
fn directive_rest(
    alloc: Global,
    tokens: &mut TokenCursor<'_>,
    file: FileId,
    depth: usize,
) -> Result<
    (
        Option<Vec<Node<InputValueDefinition>>>,
        Option<DirectiveList>,
        Option<()>,
        Vec<DirectiveLocation>,
    ),
    ParseError,
>
    ensures { Reads directive_rest_view (steps.directive_rest (in_file file) depth tokens.old) result tokens.new }
{
    let arguments = optional_arguments_definition(alloc, tokens, file, depth)?;
    let (directives, repeatable, locations) = directive_tail(alloc, tokens, file, depth)?;
    Ok((arguments, directives, repeatable, locations))
}

/// DirectiveDefinition, after its description:
/// `"directive" "@" Name ArgumentsDefinition? Directives? "repeatable"? "on" DirectiveLocations` (the directives go past
/// October 2021).
pub fn directive_definition(
    alloc: Global,
    tokens: &mut TokenCursor<'_>,
    file: FileId,
    depth: usize,
) -> Result<DirectiveDefinition, ParseError>
    ensures { Reads directive_definition_tree (reading.directive_definition (in_file file) depth tokens.old) result tokens.new }
{
    directive_marks(tokens)?;
    let name = name(tokens, file)?;
    let (arguments, directives, repeatable, locations) = directive_rest(
        alloc, tokens, file, depth,
    )?;
    Ok(DirectiveDefinition {
        description: None,
        name,
        arguments: input_values_or_none(alloc, arguments),
        directives: directives_or_none(alloc, directives),
        repeatable: repeatable.is_some(),
        locations,
    })
}
