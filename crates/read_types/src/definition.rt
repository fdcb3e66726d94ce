//! Definitions of the type system (section 3).
ghost use Rattle.std.specs.Prelude.{◌≡◌, Some, IfOk};
ghost use Rattle.std.specs.Option.{option_map};
ghost use Rattle.graphql_names.specs.Node.{content, place as place_of};
ghost use Rattle.graphql_names.specs.declared.node.Node.{Node};
ghost use Rattle.graphql_names.specs.Placed.{text_tree};
ghost use Rattle.read_operations.specs.in_definitions.DefinitionTree.{definition_tree};
ghost use Rattle.read_grammar.specs.DocumentReading as reading;
ghost use Rattle.read_grammar.specs.Grammar as grammar;
ghost use Rattle.read_grammar.specs.Reading.{Reads};
ghost use Rattle.read_types.specs.KindSteps as steps;
ghost use Rattle.read_types.specs.KindTrees.{kind_tree};
ghost use Rattle.read_types.specs.in_read_operations.Meanings.{in_file};

use crate::directive_definition;
use crate::kind::Kind;
use crate::schema::schema_definition;
use crate::types::type_definition;
use graphql_names::{FileId, Node, NodeStr, SourceSpan};
use read_operations::{Definition, ParseError, begin, next_is, optional_description, since};
use read_tokens::{Terminal, TokenCursor};
use std::alloc::{AllocError, Global};

/// A definition of this value, at a place.
pub fn placed<T: Drop>(alloc: Global, place: SourceSpan, value: T) -> Result<Definition, AllocError>
where
    Definition: From<Node<T>>,
    ensures { IfOk result (λ d. (n : Node T) × ((content n ≡ value) × ((place_of n ≡ Some place) × ⟦<Definition as From<Node<T>>>⟧.from_gives n d))) }
{
    Ok(Definition::from(Node::new_parsed(alloc, value, place)?))
}

/// SchemaDefinition or TypeDefinition, after its description.
fn definition_kind(
    alloc: Global,
    tokens: &mut TokenCursor<'_>,
    file: FileId,
    depth: usize,
) -> Result<Kind, ParseError>
    ensures { Reads kind_tree (steps.definition_kind (in_file file) depth tokens.old) result tokens.new }
{
    if next_is(tokens, Terminal::Schema) {
        return schema_definition(alloc, tokens, file, depth);
    }
    type_definition(alloc, tokens, file, depth)
}

/// The definition of the schema or of a type, with a description, at a place.
fn defined(
    alloc: Global,
    place: SourceSpan,
    description: Option<NodeStr>,
    kind: Kind,
) -> Result<Definition, AllocError>
    ensures { IfOk result (λ d. definition_tree d ≡ grammar.definition_of (Some place) (option_map text_tree description) (kind_tree kind)) }
{
    match kind {
        Kind::Schema(parts) => placed(alloc, place, parts.into_definition(description)),
        Kind::Scalar(parts) => placed(alloc, place, parts.into_definition(description)),
        Kind::Object(parts) => placed(alloc, place, parts.into_definition(description)),
        Kind::Interface(parts) => placed(alloc, place, parts.into_definition(description)),
        Kind::Union(parts) => placed(alloc, place, parts.into_definition(description)),
        Kind::Enum(parts) => placed(alloc, place, parts.into_definition(description)),
        Kind::InputObject(parts) => placed(alloc, place, parts.into_definition(description)),
    }
}

/// How a definition begins: at which byte, and with which description.
#[derive(Drop)]
struct Heading {
    begin: usize,
    description: Option<NodeStr>,
}

/// The definition of the schema or of a type, with this heading.
fn described_kind(
    alloc: Global,
    tokens: &mut TokenCursor<'_>,
    file: FileId,
    depth: usize,
    heading: Heading,
) -> Result<Definition, ParseError>
    ensures { Reads definition_tree (steps.kind_from (in_file file) heading.begin (option_map text_tree heading.description) depth tokens.old) result tokens.new }
{
    let Heading { begin, description } = heading;
    let kind = definition_kind(alloc, tokens, file, depth)?;
    let place = since(tokens, file, begin);
    Ok(defined(alloc, place, description, kind)?)
}

/// The definition of a directive, with this heading.
fn described_directive(
    alloc: Global,
    tokens: &mut TokenCursor<'_>,
    file: FileId,
    depth: usize,
    heading: Heading,
) -> Result<Definition, ParseError>
    ensures { Reads definition_tree (steps.directive_from (in_file file) heading.begin (option_map text_tree heading.description) depth tokens.old) result tokens.new }
{
    let Heading { begin, description } = heading;
    let mut found = directive_definition(alloc, tokens, file, depth)?;
    let place = since(tokens, file, begin);
    found.description = description;
    Ok(placed(alloc, place, found)?)
}

/// TypeSystemDefinition: `Description? (SchemaDefinition / TypeDefinition / DirectiveDefinition)`. Its place begins at
/// the description, where it has one.
pub fn type_system_definition(
    alloc: Global,
    tokens: &mut TokenCursor<'_>,
    file: FileId,
    depth: usize,
) -> Result<Definition, ParseError>
    ensures { Reads definition_tree (reading.type_system_definition (in_file file) depth tokens.old) result tokens.new }
{
    let begin = begin(tokens);
    let description = optional_description(alloc, tokens, file)?;
    let heading = Heading { begin, description };
    if next_is(tokens, Terminal::Directive) {
        return described_directive(alloc, tokens, file, depth, heading);
    }
    described_kind(alloc, tokens, file, depth, heading)
}
