//! Places where a directive may stand (section 3.13).
ghost use Rattle.std.specs.Prelude.{◌≡◌};
ghost use Rattle.read_grammar.specs.Kinds as kinds;
ghost use Rattle.read_grammar.specs.Locations.{location_of, named_among};
ghost use Rattle.read_grammar.specs.Reading as read;
ghost use Rattle.read_grammar.specs.Reading.{Reads};
ghost use Rattle.read_grammar.specs.TypeSystemReading as reading;
ghost use Rattle.read_types.specs.MemberSteps as steps;

use read_operations::{ParseError, expect, next_is};
use read_tokens::{Terminal, TokenCursor};
use std::alloc::Global;
use tree_directives::DirectiveLocation;

/// All places but the last of the twenty.
const LOCATIONS: [DirectiveLocation; 19] = [
    DirectiveLocation::Query,
    DirectiveLocation::Mutation,
    DirectiveLocation::Subscription,
    DirectiveLocation::Field,
    DirectiveLocation::FragmentDefinition,
    DirectiveLocation::FragmentSpread,
    DirectiveLocation::InlineFragment,
    DirectiveLocation::VariableDefinition,
    DirectiveLocation::Schema,
    DirectiveLocation::Scalar,
    DirectiveLocation::Object,
    DirectiveLocation::FieldDefinition,
    DirectiveLocation::ArgumentDefinition,
    DirectiveLocation::Interface,
    DirectiveLocation::Union,
    DirectiveLocation::Enum,
    DirectiveLocation::EnumValue,
    DirectiveLocation::InputObject,
    DirectiveLocation::InputFieldDefinition,
];

/// The first place of the table with this name; `DirectiveDefinition` if none has it.
#[tactic(auto, using(crate::proofs::Places::place_here, crate::proofs::Places::place_after))]
fn find_location(table: &[DirectiveLocation], text: &str) -> DirectiveLocation
    ensures { result ≡ named_among table.now text.now }
{
    for location in table {
        if location.name() == text {
            return *location;
        }
    }
    DirectiveLocation::DirectiveDefinition
}

/// The place with this name; a token of the class Location has the name of one of the twenty.
#[tactic(auto, unfolding(read_grammar::specs::Locations::location_of))]
fn location_named(text: &str) -> DirectiveLocation
    ensures { result ≡ location_of text.now }
{
    find_location(&LOCATIONS, text)
}

/// DirectiveLocation: one of the twenty names.
fn directive_location(tokens: &mut TokenCursor<'_>) -> Result<DirectiveLocation, ParseError>
    ensures { Reads (λ x. x) (reading.directive_location tokens.old) result tokens.new }
{
    if !next_is(tokens, Terminal::Location) {
        return Err(ParseError::Unexpected);
    }
    let text = tokens.skip();
    Ok(location_named(text))
}

/// One more place after `|`.
fn next_location(tokens: &mut TokenCursor<'_>) -> Result<DirectiveLocation, ParseError>
    ensures { Reads (λ x. x) (read.following kinds.is_pipe reading.directive_location tokens.old) result tokens.new }
{
    expect(tokens, Terminal::Pipe)?;
    directive_location(tokens)
}

/// The first place; a `|` may also precede it.
fn first_location(tokens: &mut TokenCursor<'_>) -> Result<DirectiveLocation, ParseError>
    ensures { Reads (λ x. x) (steps.first kinds.is_pipe reading.directive_location tokens.old) result tokens.new }
{
    if next_is(tokens, Terminal::Pipe) {
        return next_location(tokens);
    }
    directive_location(tokens)
}

/// The places that follow those found, each after `|`.
fn other_locations(
    tokens: &mut TokenCursor<'_>,
    mut found: Vec<DirectiveLocation>,
) -> Result<Vec<DirectiveLocation>, ParseError>
    ensures { Reads (λ v. v.items) (steps.others kinds.is_pipe reading.directive_location found.items tokens.old) result tokens.new }
{
    'turns: while next_is(tokens, Terminal::Pipe) {
        found.push(next_location(tokens)?)?;
    }
    Ok(found)
}

/// DirectiveLocations: `"|"? DirectiveLocation ("|" DirectiveLocation)*`.
pub fn directive_locations(
    alloc: Global,
    tokens: &mut TokenCursor<'_>,
) -> Result<Vec<DirectiveLocation>, ParseError>
    ensures { Reads (λ v. v.items) (reading.directive_locations tokens.old) result tokens.new }
{
    let first = first_location(tokens)?;
    let mut found = Vec::new(alloc);
    found.push(first)?;
    other_locations(tokens, found)
}
