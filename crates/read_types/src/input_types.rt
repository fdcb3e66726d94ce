//! Types that input can have: scalars, enums and input objects (sections 3.5, 3.9 and 3.10).
ghost use Rattle.std.specs.Prelude.{◌≡◌};
ghost use Rattle.read_grammar.specs.Reading.{Reads};
ghost use Rattle.read_types.specs.KindSteps as steps;
ghost use Rattle.read_types.specs.KindTrees.{kind_tree};
ghost use Rattle.read_types.specs.in_read_operations.Meanings.{in_file};
ghost use Rattle.read_types.specs.KindViews.{enum_rest_view, input_object_rest_view};

use crate::kind::Kind;
use crate::{
    enum_values_or_none, input_values_or_none, optional_enum_values_definition,
    optional_input_fields_definition,
};
use graphql_names::{FileId, Node};
use read_operations::{ParseError, directives_or_none, expect, name, optional_directives};
use read_tokens::{Terminal, TokenCursor};
use std::alloc::Global;
use tree_directives::{DirectiveList, InputValueDefinition};
use tree_input_types::{EnumTypeExtension, InputObjectTypeExtension, ScalarTypeExtension};
use tree_type_members::EnumValueDefinition;

/// ScalarTypeDefinition (section 3.5): `"scalar" Name Directives?`.
#[tactic(auto, unfolding(read_grammar::specs::TypeSystemReading::scalar_type))]
pub fn scalar_type(
    alloc: Global,
    tokens: &mut TokenCursor<'_>,
    file: FileId,
    depth: usize,
) -> Result<Kind, ParseError>
    ensures { Reads kind_tree (steps.scalar_kind (in_file file) depth tokens.old) result tokens.new }
{
    expect(tokens, Terminal::Scalar)?;
    let name = name(tokens, file)?;
    let directives = optional_directives(alloc, tokens, file, true, depth)?;
    Ok(Kind::Scalar(ScalarTypeExtension {
        name,
        directives: directives_or_none(alloc, directives),
    }))
}

/// What follows the name of an enum: `Directives? EnumValuesDefinition?`.
fn enum_rest(
    alloc: Global,
    tokens: &mut TokenCursor<'_>,
    file: FileId,
    depth: usize,
) -> Result<
    (
        Option<DirectiveList>,
        Option<Vec<Node<EnumValueDefinition>>>,
    ),
    ParseError,
>
    ensures { Reads enum_rest_view (steps.enum_rest (in_file file) depth tokens.old) result tokens.new }
{
    let directives = optional_directives(alloc, tokens, file, true, depth)?;
    let values = optional_enum_values_definition(alloc, tokens, file, depth)?;
    Ok((directives, values))
}

/// EnumTypeDefinition (section 3.9): `"enum" Name Directives? EnumValuesDefinition?`.
#[tactic(auto, unfolding(read_grammar::specs::TypeSystemReading::enum_type))]
pub fn enum_type(
    alloc: Global,
    tokens: &mut TokenCursor<'_>,
    file: FileId,
    depth: usize,
) -> Result<Kind, ParseError>
    ensures { Reads kind_tree (steps.enum_kind (in_file file) depth tokens.old) result tokens.new }
{
    expect(tokens, Terminal::Enum)?;
    let name = name(tokens, file)?;
    let (directives, values) = enum_rest(alloc, tokens, file, depth)?;
    Ok(Kind::Enum(EnumTypeExtension {
        name,
        directives: directives_or_none(alloc, directives),
        values: enum_values_or_none(alloc, values),
    }))
}

/// What follows the name of an input object: `Directives? InputFieldsDefinition?`.
fn input_object_rest(
    alloc: Global,
    tokens: &mut TokenCursor<'_>,
    file: FileId,
    depth: usize,
) -> Result<
    (
        Option<DirectiveList>,
        Option<Vec<Node<InputValueDefinition>>>,
    ),
    ParseError,
>
    ensures { Reads input_object_rest_view (steps.input_object_rest (in_file file) depth tokens.old) result tokens.new }
{
    let directives = optional_directives(alloc, tokens, file, true, depth)?;
    let fields = optional_input_fields_definition(alloc, tokens, file, depth)?;
    Ok((directives, fields))
}

/// InputObjectTypeDefinition (section 3.10): `"input" Name Directives? InputFieldsDefinition?`.
#[tactic(auto, unfolding(read_grammar::specs::TypeSystemReading::input_object_type))]
pub fn input_object_type(
    alloc: Global,
    tokens: &mut TokenCursor<'_>,
    file: FileId,
    depth: usize,
) -> Result<Kind, ParseError>
    ensures { Reads kind_tree (steps.input_object_kind (in_file file) depth tokens.old) result tokens.new }
{
    expect(tokens, Terminal::Input)?;
    let name = name(tokens, file)?;
    let (directives, fields) = input_object_rest(alloc, tokens, file, depth)?;
    Ok(Kind::InputObject(InputObjectTypeExtension {
        name,
        directives: directives_or_none(alloc, directives),
        fields: input_values_or_none(alloc, fields),
    }))
}
