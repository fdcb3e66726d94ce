//! The schema: its root operation types (section 3.3).
ghost use Rattle.std.specs.Prelude.{◌≡◌};
ghost use Rattle.read_grammar.specs.Reading.{Reads};
ghost use Rattle.read_types.specs.KindSteps as steps;
ghost use Rattle.read_types.specs.KindTrees.{kind_tree};
ghost use Rattle.read_types.specs.in_read_operations.Meanings.{in_file};

use crate::kind::Kind;
use crate::{optional_roots, roots, roots_or_none};
use graphql_names::FileId;
use read_operations::{ParseError, directives_or_none, expect, optional_directives};
use read_tokens::{Terminal, TokenCursor};
use std::alloc::Global;
use tree_input_types::SchemaExtension;

/// SchemaDefinition (section 3.3): `"schema" Directives? "{" RootOperationTypeDefinition+ "}"`.
#[tactic(auto, unfolding(read_grammar::specs::TypeSystemReading::schema_definition))]
pub fn schema_definition(
    alloc: Global,
    tokens: &mut TokenCursor<'_>,
    file: FileId,
    depth: usize,
) -> Result<Kind, ParseError>
    ensures { Reads kind_tree (steps.schema_kind (in_file file) depth tokens.old) result tokens.new }
{
    expect(tokens, Terminal::Schema)?;
    let directives = optional_directives(alloc, tokens, file, true, depth)?;
    let root_operations = roots(alloc, tokens, file, depth)?;
    Ok(Kind::Schema(SchemaExtension {
        directives: directives_or_none(alloc, directives),
        root_operations,
    }))
}

/// SchemaExtension after `extend` (section 3.3.2): `"schema" Directives? ("{" RootOperationTypeDefinition+ "}")?`.
#[tactic(auto, unfolding(read_grammar::specs::TypeSystemReading::schema_extension))]
pub fn schema_extension(
    alloc: Global,
    tokens: &mut TokenCursor<'_>,
    file: FileId,
    depth: usize,
) -> Result<Kind, ParseError>
    ensures { Reads kind_tree (steps.schema_extension_kind (in_file file) depth tokens.old) result tokens.new }
{
    expect(tokens, Terminal::Schema)?;
    let directives = optional_directives(alloc, tokens, file, true, depth)?;
    let root_operations = optional_roots(alloc, tokens, file, depth)?;
    Ok(Kind::Schema(SchemaExtension {
        directives: directives_or_none(alloc, directives),
        root_operations: roots_or_none(alloc, root_operations),
    }))
}
