//! Objects, interfaces and unions (sections 3.6 to 3.8).
ghost use Rattle.std.specs.Prelude.{◌≡◌};
ghost use Rattle.read_grammar.specs.Reading.{Reads};
ghost use Rattle.read_types.specs.KindSteps as steps;
ghost use Rattle.read_types.specs.KindTrees.{kind_tree};
ghost use Rattle.read_types.specs.in_read_operations.Meanings.{in_file};
ghost use Rattle.read_types.specs.KindViews.{fields_rest_view, union_rest_view};

use crate::kind::Kind;
use crate::{
    fields_or_none, names_or_none, optional_fields_definition, optional_implements_interfaces,
    optional_union_member_types,
};
use graphql_names::{FileId, Node};
use read_operations::{ParseError, directives_or_none, expect, name, optional_directives};
use read_tokens::{Terminal, TokenCursor};
use std::alloc::Global;
use tree_composite_types::{InterfaceTypeExtension, ObjectTypeExtension, UnionTypeExtension};
use tree_directives::DirectiveList;
use tree_literals::NamedType;
use tree_type_members::FieldDefinition;

/// What follows the name of an object or an interface: `ImplementsInterfaces? Directives? FieldsDefinition?`.
fn fields_rest(
    alloc: Global,
    tokens: &mut TokenCursor<'_>,
    file: FileId,
    depth: usize,
) -> Result<
    (
        Option<Vec<NamedType>>,
        Option<DirectiveList>,
        Option<Vec<Node<FieldDefinition>>>,
    ),
    ParseError,
>
    ensures { Reads fields_rest_view (steps.fields_rest (in_file file) depth tokens.old) result tokens.new }
{
    let interfaces = optional_implements_interfaces(alloc, tokens, file)?;
    let directives = optional_directives(alloc, tokens, file, true, depth)?;
    let fields = optional_fields_definition(alloc, tokens, file, depth)?;
    Ok((interfaces, directives, fields))
}

/// ObjectTypeDefinition (section 3.6): `"type" Name ImplementsInterfaces? Directives? FieldsDefinition?`.
#[tactic(auto, unfolding(read_grammar::specs::TypeSystemReading::object_type))]
pub fn object_type(
    alloc: Global,
    tokens: &mut TokenCursor<'_>,
    file: FileId,
    depth: usize,
) -> Result<Kind, ParseError>
    ensures { Reads kind_tree (steps.object_kind (in_file file) depth tokens.old) result tokens.new }
{
    expect(tokens, Terminal::Type)?;
    let name = name(tokens, file)?;
    let (interfaces, directives, fields) = fields_rest(alloc, tokens, file, depth)?;
    Ok(Kind::Object(ObjectTypeExtension {
        name,
        implements_interfaces: names_or_none(alloc, interfaces),
        directives: directives_or_none(alloc, directives),
        fields: fields_or_none(alloc, fields),
    }))
}

/// InterfaceTypeDefinition (section 3.7): `"interface" Name ImplementsInterfaces? Directives? FieldsDefinition?`.
#[tactic(auto, unfolding(read_grammar::specs::TypeSystemReading::interface_type))]
pub fn interface_type(
    alloc: Global,
    tokens: &mut TokenCursor<'_>,
    file: FileId,
    depth: usize,
) -> Result<Kind, ParseError>
    ensures { Reads kind_tree (steps.interface_kind (in_file file) depth tokens.old) result tokens.new }
{
    expect(tokens, Terminal::Interface)?;
    let name = name(tokens, file)?;
    let (interfaces, directives, fields) = fields_rest(alloc, tokens, file, depth)?;
    Ok(Kind::Interface(InterfaceTypeExtension {
        name,
        implements_interfaces: names_or_none(alloc, interfaces),
        directives: directives_or_none(alloc, directives),
        fields: fields_or_none(alloc, fields),
    }))
}

/// What follows the name of a union: `Directives? UnionMemberTypes?`.
fn union_rest(
    alloc: Global,
    tokens: &mut TokenCursor<'_>,
    file: FileId,
    depth: usize,
) -> Result<(Option<DirectiveList>, Option<Vec<NamedType>>), ParseError>
    ensures { Reads union_rest_view (steps.union_rest (in_file file) depth tokens.old) result tokens.new }
{
    let directives = optional_directives(alloc, tokens, file, true, depth)?;
    let members = optional_union_member_types(alloc, tokens, file)?;
    Ok((directives, members))
}

/// UnionTypeDefinition (section 3.8): `"union" Name Directives? UnionMemberTypes?`.
#[tactic(auto, unfolding(read_grammar::specs::TypeSystemReading::union_type))]
pub fn union_type(
    alloc: Global,
    tokens: &mut TokenCursor<'_>,
    file: FileId,
    depth: usize,
) -> Result<Kind, ParseError>
    ensures { Reads kind_tree (steps.union_kind (in_file file) depth tokens.old) result tokens.new }
{
    expect(tokens, Terminal::Union)?;
    let name = name(tokens, file)?;
    let (directives, members) = union_rest(alloc, tokens, file, depth)?;
    Ok(Kind::Union(UnionTypeExtension {
        name,
        directives: directives_or_none(alloc, directives),
        members: names_or_none(alloc, members),
    }))
}
