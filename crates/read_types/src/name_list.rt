//! Names with marks between them: interfaces of a type (section 3.6) and members of a union (section 3.8).
ghost use Rattle.std.specs.Prelude.{◌≡◌, [], map, unwrap_or};
ghost use Rattle.std.specs.Option.{option_map};
ghost use Rattle.graphql_names.specs.Placed.{name_tree};
ghost use Rattle.read_grammar.specs.Kinds as kinds;
ghost use Rattle.read_grammar.specs.Reading as read;
ghost use Rattle.read_grammar.specs.Reading.{Reads};
ghost use Rattle.read_grammar.specs.TypeSystemReading as reading;
ghost use Rattle.read_grammar.specs.ValueReading as values;
ghost use Rattle.read_operations.specs.Meanings.{in_file};
ghost use Rattle.read_types.specs.MemberSteps as steps;

use graphql_names::{FileId, Name};
use read_operations::{ParseError, expect, name, next_is};
use read_tokens::{Terminal, TokenCursor};
use std::alloc::Global;

/// One more name after a mark.
fn next_name(tokens: &mut TokenCursor<'_>, file: FileId, mark: Terminal) -> Result<Name, ParseError>
    ensures { Reads name_tree (read.following (kinds.is mark) (values.name (in_file file)) tokens.old) result tokens.new }
{
    expect(tokens, mark)?;
    name(tokens, file)
}

/// The first name; a mark may also precede it.
fn first_name(
    tokens: &mut TokenCursor<'_>,
    file: FileId,
    mark: Terminal,
) -> Result<Name, ParseError>
    ensures { Reads name_tree (steps.first (kinds.is mark) (values.name (in_file file)) tokens.old) result tokens.new }
{
    if next_is(tokens, mark) {
        return next_name(tokens, file, mark);
    }
    name(tokens, file)
}

/// The names that follow those found, each after a mark.
// A separate function for the loop, so that its `?` are not in one function with those for the first name.
fn other_names(
    tokens: &mut TokenCursor<'_>,
    file: FileId,
    mark: Terminal,
    mut found: Vec<Name>,
) -> Result<Vec<Name>, ParseError>
    ensures { Reads (λ v. map name_tree v.items) (steps.other_names (in_file file) (kinds.is mark) (map name_tree found.items) tokens.old) result tokens.new }
{
    'turns: while next_is(tokens, mark) {
        found.push(next_name(tokens, file, mark)?)?;
    }
    Ok(found)
}

/// One or more names with marks between: `mark? Name (mark Name)*`.
fn names(
    alloc: Global,
    tokens: &mut TokenCursor<'_>,
    file: FileId,
    mark: Terminal,
) -> Result<Vec<Name>, ParseError>
    ensures { Reads (λ v. map name_tree v.items) (read.separated (kinds.is mark) (values.name (in_file file)) tokens.old) result tokens.new }
{
    let first = first_name(tokens, file, mark)?;
    let mut found = Vec::new(alloc);
    found.push(first)?;
    other_names(tokens, file, mark, found)
}

/// ImplementsInterfaces: `"implements" "&"? Name ("&" Name)*`.
#[tactic(auto, unfolding(read_grammar::specs::TypeSystemReading::implements_interfaces))]
pub fn implements_interfaces(
    alloc: Global,
    tokens: &mut TokenCursor<'_>,
    file: FileId,
) -> Result<Vec<Name>, ParseError>
    ensures { Reads (λ v. map name_tree v.items) (reading.implements_interfaces (in_file file) tokens.old) result tokens.new }
{
    expect(tokens, Terminal::Implements)?;
    names(alloc, tokens, file, Terminal::Ampersand)
}

/// ImplementsInterfaces, or nothing.
pub fn optional_implements_interfaces(
    alloc: Global,
    tokens: &mut TokenCursor<'_>,
    file: FileId,
) -> Result<Option<Vec<Name>>, ParseError>
    ensures { Reads (option_map (λ v. map name_tree v.items)) (read.try kinds.is_implements (reading.implements_interfaces (in_file file)) tokens.old) result tokens.new }
{
    if !next_is(tokens, Terminal::Implements) {
        return Ok(None);
    }
    Ok(Some(implements_interfaces(alloc, tokens, file)?))
}

/// UnionMemberTypes: `"=" "|"? Name ("|" Name)*`.
#[tactic(auto, unfolding(read_grammar::specs::TypeSystemReading::union_member_types))]
pub fn union_member_types(
    alloc: Global,
    tokens: &mut TokenCursor<'_>,
    file: FileId,
) -> Result<Vec<Name>, ParseError>
    ensures { Reads (λ v. map name_tree v.items) (reading.union_member_types (in_file file) tokens.old) result tokens.new }
{
    expect(tokens, Terminal::Equals)?;
    names(alloc, tokens, file, Terminal::Pipe)
}

/// UnionMemberTypes, or nothing.
pub fn optional_union_member_types(
    alloc: Global,
    tokens: &mut TokenCursor<'_>,
    file: FileId,
) -> Result<Option<Vec<Name>>, ParseError>
    ensures { Reads (option_map (λ v. map name_tree v.items)) (read.try kinds.is_equals (reading.union_member_types (in_file file)) tokens.old) result tokens.new }
{
    if !next_is(tokens, Terminal::Equals) {
        return Ok(None);
    }
    Ok(Some(union_member_types(alloc, tokens, file)?))
}

/// The names; none if they are left out.
pub fn names_or_none(alloc: Global, found: Option<Vec<Name>>) -> Vec<Name>
    ensures { map name_tree result.items ≡ unwrap_or (option_map (λ v. map name_tree v.items) found) [] }
{
    match found {
        None => Vec::new(alloc),
        Some(names) => names,
    }
}
