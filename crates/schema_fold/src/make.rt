//! A type of any kind, made from the components that are kept.
ghost use Rattle.std.specs.Prelude.{◌≡◌, IfOk};
ghost use Rattle.std.specs.Option.{option_map};
ghost use Rattle.graphql_names.specs.Placed.{Place, name_tree, text_tree};
ghost use Rattle.schema_types.specs.TypeView.{extended_type, scalar_type, object_type, interface_type, union_type, enum_type, input_object_type};
ghost use Rattle.schema_types.specs.declared.type_kind.TypeKind.TheVariants as kind;
ghost use Rattle.schema_fold.specs.Kept.{kept};
ghost use Rattle.schema_fold.specs.Made.{defined_view, made, headed, IsOfKind};

use crate::kept_classes::Kept;
use crate::parts::Defined;
use graphql_names::{Name, NodeStr};
use indexmap::{IndexMap, IndexSet};
use schema_types::{
    DirectiveList, EnumType, ExtendedType, InputObjectType, InterfaceType, ObjectType, ScalarType,
    TypeKind, UnionType, node_at, shared_description,
};
use std::alloc::{AllocError, Global};
use std::mem;

/// The description and the name of a type.
#[derive(Drop)]
struct Head {
    description: Option<NodeStr>,
    name: Name,
}

/// The type with that definition and these components, which are taken.
// The components are borrowed and taken one by one: otherwise six owned lists and maps would live across each `?`.
pub(crate) fn make_type(
    alloc: Global,
    defined: &Defined<'_>,
    components: &mut Kept,
) -> Result<ExtendedType, AllocError>
    requires { IsOfKind defined.now.parts.kind (kept components.old) }
    ensures { IfOk result (λ t. extended_type t ≡ made (defined_view defined.now) (kept components.old)) }
{
    let head = copied_head(defined)?;
    match defined.parts.kind {
        TypeKind::Scalar => Ok(ExtendedType::Scalar(node_at(
            alloc,
            defined.location,
            scalar_of(alloc, head, components),
        )?)),
        TypeKind::Object => Ok(ExtendedType::Object(node_at(
            alloc,
            defined.location,
            object_of(alloc, head, components),
        )?)),
        TypeKind::Interface => Ok(ExtendedType::Interface(node_at(
            alloc,
            defined.location,
            interface_of(alloc, head, components),
        )?)),
        TypeKind::Union => Ok(ExtendedType::Union(node_at(
            alloc,
            defined.location,
            union_of(alloc, head, components),
        )?)),
        TypeKind::Enum => Ok(ExtendedType::Enum(node_at(
            alloc,
            defined.location,
            enum_of(alloc, head, components),
        )?)),
        TypeKind::InputObject => Ok(ExtendedType::InputObject(node_at(
            alloc,
            defined.location,
            input_object_of(alloc, head, components),
        )?)),
    }
}

/// The description and the name of a definition. No text is copied.
fn copied_head(defined: &Defined<'_>) -> Result<Head, AllocError>
    ensures description { IfOk result (λ h. option_map text_tree h.description ≡ option_map (λ d. text_tree d.now) defined.now.description) }
    ensures name { IfOk result (λ h. name_tree h.name ≡ name_tree defined.now.parts.name.now) }
{
    let description = shared_description(defined.description)?;
    let name = defined.parts.name.clone()?;
    Ok(Head { description, name })
}

/// The content of a scalar type.
fn scalar_of(alloc: Global, head: Head, components: &mut Kept) -> ScalarType
    requires { IsOfKind kind.Scalar (kept components.old) }
    ensures { (place : Place) → scalar_type place result ≡ headed kind.Scalar place head (kept components.old) }
{
    ScalarType {
        description: head.description,
        name: head.name,
        directives: DirectiveList(mem::replace(&mut components.directives, Vec::new(alloc))),
    }
}

/// The content of an object type.
fn object_of(alloc: Global, head: Head, components: &mut Kept) -> ObjectType
    requires { IsOfKind kind.Object (kept components.old) }
    ensures { (place : Place) → object_type place result ≡ headed kind.Object place head (kept components.old) }
{
    ObjectType {
        description: head.description,
        name: head.name,
        directives: DirectiveList(mem::replace(&mut components.directives, Vec::new(alloc))),
        implements_interfaces: mem::replace(&mut components.interfaces, IndexSet::new(alloc)),
        fields: mem::replace(&mut components.fields, IndexMap::new(alloc)),
    }
}

/// The content of an interface type.
fn interface_of(alloc: Global, head: Head, components: &mut Kept) -> InterfaceType
    requires { IsOfKind kind.Interface (kept components.old) }
    ensures { (place : Place) → interface_type place result ≡ headed kind.Interface place head (kept components.old) }
{
    InterfaceType {
        description: head.description,
        name: head.name,
        directives: DirectiveList(mem::replace(&mut components.directives, Vec::new(alloc))),
        implements_interfaces: mem::replace(&mut components.interfaces, IndexSet::new(alloc)),
        fields: mem::replace(&mut components.fields, IndexMap::new(alloc)),
    }
}

/// The content of a union type.
fn union_of(alloc: Global, head: Head, components: &mut Kept) -> UnionType
    requires { IsOfKind kind.Union (kept components.old) }
    ensures { (place : Place) → union_type place result ≡ headed kind.Union place head (kept components.old) }
{
    UnionType {
        description: head.description,
        name: head.name,
        directives: DirectiveList(mem::replace(&mut components.directives, Vec::new(alloc))),
        members: mem::replace(&mut components.members, IndexSet::new(alloc)),
    }
}

/// The content of an enum type.
fn enum_of(alloc: Global, head: Head, components: &mut Kept) -> EnumType
    requires { IsOfKind kind.Enum (kept components.old) }
    ensures { (place : Place) → enum_type place result ≡ headed kind.Enum place head (kept components.old) }
{
    EnumType {
        description: head.description,
        name: head.name,
        directives: DirectiveList(mem::replace(&mut components.directives, Vec::new(alloc))),
        values: mem::replace(&mut components.values, IndexMap::new(alloc)),
    }
}

/// The content of an input object type.
fn input_object_of(alloc: Global, head: Head, components: &mut Kept) -> InputObjectType
    requires { IsOfKind kind.InputObject (kept components.old) }
    ensures { (place : Place) → input_object_type place result ≡ headed kind.InputObject place head (kept components.old) }
{
    InputObjectType {
        description: head.description,
        name: head.name,
        directives: DirectiveList(mem::replace(&mut components.directives, Vec::new(alloc))),
        fields: mem::replace(&mut components.inputs, IndexMap::new(alloc)),
    }
}
