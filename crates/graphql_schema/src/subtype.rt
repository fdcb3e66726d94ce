//! Subtypes of unions and interfaces.
ghost use Rattle.std.specs.Prelude.{◌≡◌, map};
ghost use Rattle.schema_components.specs.Lists.{is_among};
ghost use Rattle.schema_components.specs.Given.{component_name_tree, given_name};
ghost use Rattle.schema_building.specs.in_schema_types.TypeView.{extended_type};
ghost use Rattle.graphql_schema.specs.SchemaOf.{schema_tree};
ghost use Rattle.graphql_schema.specs.LookUps.{is_subtype, implements};

use crate::schema::Schema;
use graphql_names::Name;
use schema_components::ComponentName;
use schema_writing::ExtendedType;

impl Schema {
    /// Whether `maybe_subtype` is a member of the union `abstract_type`, or an object or interface that lists the
    /// interface `abstract_type`.
    pub fn is_subtype(&self, abstract_type: &Name, maybe_subtype: &Name) -> bool
        ensures { result ≡ is_subtype (schema_tree self.now) abstract_type.now.text maybe_subtype.now.text }
    {
        // The lists of the types are searched: a map of implementers would take memory.
        match self.type_named(abstract_type) {
            Some(ExtendedType::Union(union)) => {
                has_name(union.content().members.as_slice(), maybe_subtype)
            }
            Some(ExtendedType::Interface(_)) => match self.type_named(maybe_subtype) {
                None => false,
                Some(ty) => has_name(interfaces_of(ty), abstract_type),
            },
            _ => false,
        }
    }
}

/// The interfaces that an object or an interface lists; no other type lists any.
pub(crate) fn interfaces_of(ty: &ExtendedType) -> &[ComponentName]
    ensures { map component_name_tree result.now ≡ (extended_type ty.now).interfaces }
{
    match ty {
        ExtendedType::Object(object) => object.content().implements_interfaces.as_slice(),
        ExtendedType::Interface(own) => own.content().implements_interfaces.as_slice(),
        _ => &[],
    }
}

/// Whether the name is among these.
fn has_name(names: &[ComponentName], name: &Name) -> bool
    ensures { result ≡ is_among name.now.text (map given_name (map component_name_tree names.now)) }
{
    for component in names {
        if *name == component.name {
            return true;
        }
    }
    false
}
