//! Extensions of the type system (sections 3.3.2 and 3.4.3).
ghost use Rattle.std.specs.Prelude.{◌≡◌, Some, IfOk};
ghost use Rattle.read_operations.specs.in_definitions.DefinitionTree.{definition_tree};
ghost use Rattle.read_grammar.specs.DocumentReading as reading;
ghost use Rattle.read_grammar.specs.Grammar as grammar;
ghost use Rattle.read_grammar.specs.Reading.{Reads};
ghost use Rattle.read_types.specs.KindSteps as steps;
ghost use Rattle.read_types.specs.KindTrees.{kind_tree};
ghost use Rattle.read_types.specs.in_read_operations.Meanings.{in_file};

use crate::definition::placed;
use crate::kind::Kind;
use crate::schema::schema_extension;
use crate::types::type_definition;
use graphql_names::{FileId, SourceSpan};
use read_operations::{Definition, ParseError, begin, expect, next_is, since};
use read_tokens::{Terminal, TokenCursor};
use std::alloc::{AllocError, Global};

/// What an extension says after `extend`, without a look at its parts.
fn extension_kind(
    alloc: Global,
    tokens: &mut TokenCursor<'_>,
    file: FileId,
    depth: usize,
) -> Result<Kind, ParseError>
    ensures { Reads kind_tree (steps.extension_kind (in_file file) depth tokens.old) result tokens.new }
{
    if next_is(tokens, Terminal::Schema) {
        return schema_extension(alloc, tokens, file, depth);
    }
    type_definition(alloc, tokens, file, depth)
}

/// What an extension says after `extend`, with at least one part.
#[tactic(auto, unfolding(read_grammar::specs::DocumentReading::extension))]
fn extension(
    alloc: Global,
    tokens: &mut TokenCursor<'_>,
    file: FileId,
    depth: usize,
) -> Result<Kind, ParseError>
    ensures { Reads kind_tree (reading.extension (in_file file) depth tokens.old) result tokens.new }
{
    let found = extension_kind(alloc, tokens, file, depth)?;
    if !found.has_part() {
        drop(found);
        return Err(ParseError::Unexpected);
    }
    Ok(found)
}

/// The extension at a place.
fn extended(alloc: Global, place: SourceSpan, kind: Kind) -> Result<Definition, AllocError>
    ensures { IfOk result (λ d. definition_tree d ≡ grammar.extended (Some place) (kind_tree kind)) }
{
    match kind {
        Kind::Schema(parts) => placed(alloc, place, parts),
        Kind::Scalar(parts) => placed(alloc, place, parts),
        Kind::Object(parts) => placed(alloc, place, parts),
        Kind::Interface(parts) => placed(alloc, place, parts),
        Kind::Union(parts) => placed(alloc, place, parts),
        Kind::Enum(parts) => placed(alloc, place, parts),
        Kind::InputObject(parts) => placed(alloc, place, parts),
    }
}

/// TypeSystemExtension: `"extend" (SchemaExtension / TypeDefinition)`, with at least one part.
#[tactic(auto, unfolding(read_grammar::specs::DocumentReading::type_system_extension))]
pub fn type_system_extension(
    alloc: Global,
    tokens: &mut TokenCursor<'_>,
    file: FileId,
    depth: usize,
) -> Result<Definition, ParseError>
    ensures { Reads definition_tree (reading.type_system_extension (in_file file) depth tokens.old) result tokens.new }
{
    let begin = begin(tokens);
    expect(tokens, Terminal::Extend)?;
    let kind = extension(alloc, tokens, file, depth)?;
    let place = since(tokens, file, begin);
    Ok(extended(alloc, place, kind)?)
}
