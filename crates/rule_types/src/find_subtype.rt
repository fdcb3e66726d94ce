//! Subtypes of unions and interfaces, by what the types list.
ghost use Rattle.std.specs.Prelude.{◌≡◌, map, IfOk};
ghost use Rattle.schema_components.specs.Lists.{is_among};
ghost use Rattle.schema_components.specs.Given.{component_name_tree, given_name};
ghost use Rattle.schema_types.specs.TypeView.{extended_type};
ghost use Rattle.graphql_schema.specs.SchemaOf.{schema_tree};
ghost use Rattle.graphql_schema.specs.LookUps.{is_subtype};

use crate::interface_look_ups::implements;
use graphql_names::Name;
use graphql_schema::Schema;
use schema_components::{ComponentName, ComponentOrigin};
use schema_types::{ExtendedType, UnionType};
use std::alloc::AllocError;

/// Whether `name` is that of a member of the union `wanted`, or of a type that lists the interface `wanted`. It fails only
/// where a name is shared as often as can be counted.
// The schema's own `is_subtype` scans the list of the interfaces. That is too slow for each field of a type.
pub(crate) fn find_subtype(schema: &Schema, wanted: &Name, name: &Name) -> Result<bool, AllocError>
    ensures { IfOk result (λ found. found ≡ is_subtype (schema_tree schema.now) wanted.now.text name.now.text) }
{
    match schema.type_named(wanted) {
        Some(ExtendedType::Union(union)) => find_member(union.content(), name),
        Some(ExtendedType::Interface(_)) => match schema.type_named(name) {
            None => Ok(false),
            Some(ty) => find_interface(ty, wanted),
        },
        _ => Ok(false),
    }
}

/// Whether a union has a member of that name.
fn find_member(union: &UnionType, name: &Name) -> Result<bool, AllocError>
    ensures { IfOk result (λ found. found ≡ is_among name.now.text (map given_name (map component_name_tree union.now.members.keys))) }
{
    let member = as_component(name)?;
    Ok(union.members.contains(&member))
}

/// Whether a type lists an interface of that name.
fn find_interface(ty: &ExtendedType, name: &Name) -> Result<bool, AllocError>
    ensures { IfOk result (λ found. found ≡ is_among name.now.text (map given_name (extended_type ty.now).interfaces)) }
{
    let interface = as_component(name)?;
    Ok(implements(ty, &interface))
}

/// The name as what types list. Where it comes from is not compared.
fn as_component(name: &Name) -> Result<ComponentName, AllocError>
    ensures { IfOk result (λ component. component.name ≡ name.now) }
{
    Ok(ComponentName::new(ComponentOrigin::Definition, name.clone()?))
}
