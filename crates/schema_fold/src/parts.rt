//! What a definition of a type or an extension gives, whatever its kind.
ghost use Rattle.std.specs.Prelude.{◌≡◌, [], map};
ghost use Rattle.std.specs.Option.{option_map};
ghost use Rattle.graphql_names.specs.Placed.{name_tree, node_tree};
ghost use Rattle.tree_directives.specs.DirectiveTree.{directives_tree, input_value_tree};
ghost use Rattle.schema_types.specs.in_type_members.TypeSystemTree.{field_definition_tree, enum_value_tree};
ghost use Rattle.tree_definitions.specs.DefinitionTree.{definition_tree};
ghost use Rattle.schema_types.specs.TypeParts.{type_here, type_extension_here};
ghost use Rattle.schema_fold.specs.PartsView.{parts_view};
ghost use Rattle.schema_fold.specs.Made.{defined_view};

use graphql_names::{Name, Node, NodeStr, SourceSpan};
use schema_types::{EnumValueDefinition, FieldDefinition, TypeKind};
use tree_definitions::Definition;
use tree_directives::{DirectiveList, InputValueDefinition};

/// What a definition or an extension gives to its type. Interfaces, fields, members, values and input fields
/// are empty if the kind has none.
#[derive(Drop)]
pub struct Parts<'a> {
    pub kind: TypeKind,
    pub name: &'a Name,
    pub directives: &'a DirectiveList,
    pub interfaces: &'a [Name],
    pub fields: &'a [Node<FieldDefinition>],
    pub members: &'a [Name],
    pub values: &'a [Node<EnumValueDefinition>],
    pub inputs: &'a [Node<InputValueDefinition>],
}

/// The definition of a type: its place, its description, and what it gives.
#[derive(Drop)]
pub struct Defined<'a> {
    pub location: Option<SourceSpan>,
    pub description: Option<&'a NodeStr>,
    pub parts: Parts<'a>,
}

/// The type that is defined, if it is a definition of one.
// The kinds are matched here once, and their parts are lent: a match in each caller would be proved again.
pub fn type_definition(d: &Definition) -> Option<Defined<'_>>
    ensures { option_map defined_view result ≡ type_here (definition_tree d.now) }
{
    match d {
        Definition::ScalarTypeDefinition(node) => {
            let t = node.content();
            Some(Defined {
                location: node.location(),
                description: t.description.as_ref(),
                parts: Parts {
                    kind: TypeKind::Scalar,
                    name: &t.name,
                    directives: &t.directives,
                    interfaces: &[],
                    fields: &[],
                    members: &[],
                    values: &[],
                    inputs: &[],
                },
            })
        }
        Definition::ObjectTypeDefinition(node) => {
            let t = node.content();
            Some(Defined {
                location: node.location(),
                description: t.description.as_ref(),
                parts: Parts {
                    kind: TypeKind::Object,
                    name: &t.name,
                    directives: &t.directives,
                    interfaces: t.implements_interfaces.as_slice(),
                    fields: t.fields.as_slice(),
                    members: &[],
                    values: &[],
                    inputs: &[],
                },
            })
        }
        Definition::InterfaceTypeDefinition(node) => {
            let t = node.content();
            Some(Defined {
                location: node.location(),
                description: t.description.as_ref(),
                parts: Parts {
                    kind: TypeKind::Interface,
                    name: &t.name,
                    directives: &t.directives,
                    interfaces: t.implements_interfaces.as_slice(),
                    fields: t.fields.as_slice(),
                    members: &[],
                    values: &[],
                    inputs: &[],
                },
            })
        }
        Definition::UnionTypeDefinition(node) => {
            let t = node.content();
            Some(Defined {
                location: node.location(),
                description: t.description.as_ref(),
                parts: Parts {
                    kind: TypeKind::Union,
                    name: &t.name,
                    directives: &t.directives,
                    interfaces: &[],
                    fields: &[],
                    members: t.members.as_slice(),
                    values: &[],
                    inputs: &[],
                },
            })
        }
        Definition::EnumTypeDefinition(node) => {
            let t = node.content();
            Some(Defined {
                location: node.location(),
                description: t.description.as_ref(),
                parts: Parts {
                    kind: TypeKind::Enum,
                    name: &t.name,
                    directives: &t.directives,
                    interfaces: &[],
                    fields: &[],
                    members: &[],
                    values: t.values.as_slice(),
                    inputs: &[],
                },
            })
        }
        Definition::InputObjectTypeDefinition(node) => {
            let t = node.content();
            Some(Defined {
                location: node.location(),
                description: t.description.as_ref(),
                parts: Parts {
                    kind: TypeKind::InputObject,
                    name: &t.name,
                    directives: &t.directives,
                    interfaces: &[],
                    fields: &[],
                    members: &[],
                    values: &[],
                    inputs: t.fields.as_slice(),
                },
            })
        }
        _ => None,
    }
}

/// What the extension of a type gives, if it is one.
pub fn extension_parts(d: &Definition) -> Option<Parts<'_>>
    ensures { option_map parts_view result ≡ type_extension_here (definition_tree d.now) }
{
    match d {
        Definition::ScalarTypeExtension(node) => {
            let t = node.content();
            Some(Parts {
                kind: TypeKind::Scalar,
                name: &t.name,
                directives: &t.directives,
                interfaces: &[],
                fields: &[],
                members: &[],
                values: &[],
                inputs: &[],
            })
        }
        Definition::ObjectTypeExtension(node) => {
            let t = node.content();
            Some(Parts {
                kind: TypeKind::Object,
                name: &t.name,
                directives: &t.directives,
                interfaces: t.implements_interfaces.as_slice(),
                fields: t.fields.as_slice(),
                members: &[],
                values: &[],
                inputs: &[],
            })
        }
        Definition::InterfaceTypeExtension(node) => {
            let t = node.content();
            Some(Parts {
                kind: TypeKind::Interface,
                name: &t.name,
                directives: &t.directives,
                interfaces: t.implements_interfaces.as_slice(),
                fields: t.fields.as_slice(),
                members: &[],
                values: &[],
                inputs: &[],
            })
        }
        Definition::UnionTypeExtension(node) => {
            let t = node.content();
            Some(Parts {
                kind: TypeKind::Union,
                name: &t.name,
                directives: &t.directives,
                interfaces: &[],
                fields: &[],
                members: t.members.as_slice(),
                values: &[],
                inputs: &[],
            })
        }
        Definition::EnumTypeExtension(node) => {
            let t = node.content();
            Some(Parts {
                kind: TypeKind::Enum,
                name: &t.name,
                directives: &t.directives,
                interfaces: &[],
                fields: &[],
                members: &[],
                values: t.values.as_slice(),
                inputs: &[],
            })
        }
        Definition::InputObjectTypeExtension(node) => {
            let t = node.content();
            Some(Parts {
                kind: TypeKind::InputObject,
                name: &t.name,
                directives: &t.directives,
                interfaces: &[],
                fields: &[],
                members: &[],
                values: &[],
                inputs: t.fields.as_slice(),
            })
        }
        _ => None,
    }
}
