//! Types of any kind (section 3.4).
ghost use Rattle.std.specs.Prelude.{◌≡◌};
ghost use Rattle.read_grammar.specs.Reading.{Reads};
ghost use Rattle.read_grammar.specs.TypeSystemReading as reading;
ghost use Rattle.read_types.specs.KindTrees.{kind_tree};
ghost use Rattle.read_types.specs.in_read_operations.Meanings.{in_file};

use crate::composite_types::{interface_type, object_type, union_type};
use crate::input_types::{enum_type, input_object_type, scalar_type};
use crate::kind::Kind;
use graphql_names::FileId;
use read_operations::{ParseError, next_is};
use read_tokens::{Terminal, TokenCursor};
use std::alloc::Global;

/// TypeDefinition (section 3.4): a scalar, an object, an interface, a union, an enum or an input object, by its keyword.
pub fn type_definition(
    alloc: Global,
    tokens: &mut TokenCursor<'_>,
    file: FileId,
    depth: usize,
) -> Result<Kind, ParseError>
    ensures { Reads kind_tree (reading.type_definition (in_file file) depth tokens.old) result tokens.new }
{
    if next_is(tokens, Terminal::Scalar) {
        return scalar_type(alloc, tokens, file, depth);
    }
    if next_is(tokens, Terminal::Type) {
        return object_type(alloc, tokens, file, depth);
    }
    if next_is(tokens, Terminal::Interface) {
        return interface_type(alloc, tokens, file, depth);
    }
    if next_is(tokens, Terminal::Union) {
        return union_type(alloc, tokens, file, depth);
    }
    if next_is(tokens, Terminal::Enum) {
        return enum_type(alloc, tokens, file, depth);
    }
    if next_is(tokens, Terminal::Input) {
        return input_object_type(alloc, tokens, file, depth);
    }
    Err(ParseError::Unexpected)
}
