//! Schemas by the calls that may run out of memory and that only these rows reach.

use crate::copies::is_copied;
use graphql_schema::{ExtendedType, ObjectType, Schema, SchemaDefinition};
use row_files::Lines;
use std::alloc::{AllocError, Global};

/// Adds whether the schema is the new one, which is that of no texts, and how many types and directives it has; then a line
/// for each type, for each extension of the schema definition, and for each interface that is implemented.
pub(crate) fn push_extended(
    alloc: Global,
    schema: &Schema,
    lines: &mut Lines,
) -> Result<(), AllocError> {
    if Schema::new(alloc)? == *schema {
        lines.put("the schema of no texts, ");
    }
    lines.show_between("types ", &schema.types.len(), ", directives ");
    lines.show_between("", &schema.directive_definitions.len(), "\n");
    for ty in schema.types.values() {
        push_type(alloc, ty, lines)?;
    }
    push_roots(alloc, schema.schema_definition.content(), lines)?;
    push_implementers(alloc, schema, lines)
}

/// Adds the type's name, unless it is built in; how many extensions gave it a component, by the call of its kind and by that
/// of types; whether its copy equals it; and, of an object of the texts, what is told of its components.
fn push_type(alloc: Global, ty: &ExtendedType, lines: &mut Lines) -> Result<(), AllocError> {
    if !ty.is_built_in() {
        lines.show_between("", ty.name(), " ");
    }
    lines.show_between("", &count_by_kind(alloc, ty)?, " ");
    lines.show(&ty.extensions(alloc)?.len());
    if is_copied(ty) {
        lines.put(" copied");
    }
    match ty {
        ExtendedType::Object(node) if !ty.is_built_in() => {
            push_components(node.content(), lines)?;
        }
        _ => {}
    }
    lines.put("\n");
    Ok(())
}

/// How many extensions gave a component to the type, by the call of its kind.
fn count_by_kind(alloc: Global, ty: &ExtendedType) -> Result<usize, AllocError> {
    let extensions = match ty {
        ExtendedType::Scalar(ty) => ty.content().extensions(alloc),
        ExtendedType::Object(ty) => ty.content().extensions(alloc),
        ExtendedType::Interface(ty) => ty.content().extensions(alloc),
        ExtendedType::Union(ty) => ty.content().extensions(alloc),
        ExtendedType::Enum(ty) => ty.content().extensions(alloc),
        ExtendedType::InputObject(ty) => ty.content().extensions(alloc),
    };
    Ok(extensions?.len())
}

/// Adds whether copies of the object's directives and of its interfaces' names equal these, and how many directives there are
/// with a copy of each pushed.
fn push_components(object: &ObjectType, lines: &mut Lines) -> Result<(), AllocError> {
    let mut list = object.directives.clone()?;
    if list == object.directives {
        lines.put(", with a list");
    }
    for component in &object.directives.0 {
        if is_copied(component) {
            lines.put(", one");
        }
        list.push(component.clone()?)?;
    }
    for name in object.implements_interfaces.as_slice() {
        if is_copied(name) {
            lines.put(", a name");
        }
    }
    lines.show_between(", with those pushed ", &list.0.len(), "");
    Ok(())
}

/// Adds a line for each extension that gave a component to the schema definition, if it has a place and a node gets that.
fn push_roots(
    alloc: Global,
    roots: &SchemaDefinition,
    lines: &mut Lines,
) -> Result<(), AllocError> {
    let extensions = roots.extensions(alloc)?;
    for id in extensions.as_slice() {
        let node = id.same_location(alloc, 0_u8)?;
        if id.location().is_some() && node.location() == id.location() {
            lines.put("placed, and a node\n");
        }
    }
    Ok(())
}

/// Adds, for each interface that is implemented, how many objects and how many interfaces implement it, and then the number
/// of these interfaces.
fn push_implementers(alloc: Global, schema: &Schema, lines: &mut Lines) -> Result<(), AllocError> {
    let map = schema.implementers_map(alloc)?;
    for ty in schema.types.values() {
        if let Some(found) = map.get(ty.name()) {
            lines.show_between("", ty.name(), " by ");
            lines.show_between("", &found.objects.len(), " and ");
            lines.show_between("", &found.interfaces.len(), "\n");
        }
    }
    lines.show_between("", &map.len(), " implemented\n");
    Ok(())
}
