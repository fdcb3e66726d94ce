//! Fields of types by name.
ghost use Rattle.std.specs.Prelude.{◌≡◌, ◌&&◌, IfOk, IfErr};
ghost use Rattle.std.specs.Option.{option_map};
ghost use Rattle.tree_type_members.specs.TypeSystemTree.{field_definition_tree};
ghost use Rattle.schema_components.specs.Given.{component_tree};
ghost use Rattle.schema_building.specs.in_schema_types.Addresses.{under};
ghost use Rattle.schema_building.specs.in_schema_types.TypeView.{extended_type};
ghost use Rattle.schema_building.specs.in_built_in.MetaFields.{meta_field_of};
ghost use Rattle.graphql_schema.specs.SchemaOf.{schema_tree};
ghost use Rattle.graphql_schema.specs.MetaField.{by_definition};
ghost use Rattle.graphql_schema.specs.FieldView.{lent_field};
ghost use Rattle.graphql_schema.specs.LookUps.{is_query_root, IsFieldOn, IsFieldNamed, FieldIsMissing};

use crate::schema::Schema;
use graphql_names::Name;
use schema_components::Component;
use schema_writing::ExtendedType;
use std::fmt;
use thiserror::Error;
use tree_type_members::FieldDefinition;

/// Why a type has no field of a name.
#[derive(Clone, Copy, Error)]
pub enum FieldLookupError<'schema> {
    /// There is no such type.
    #[error("there is no such type")]
    NoSuchType,
    /// The type, here with its name, has no such field.
    #[error("the type has no such field")]
    NoSuchField(&'schema Name, &'schema ExtendedType),
}

/// The text of `Display`.
impl fmt::Debug for FieldLookupError<'_> {
    fn fmt<W: fmt::Write>(&self, f: &mut fmt::Formatter<W>) -> fmt::Result {
        fmt::Display::fmt(self, f)
    }
}

impl Schema {
    /// The field `field_name` of the type `type_name`. The type's definition or an extension of it gives the field, or
    /// else it is a meta-field: `__typename` of an object, an interface or a union, and `__schema` and `__type` of the
    /// query root, if that is one of these (sections 2.5, 4.1 and 4.2).
    pub fn type_field(
        &self,
        type_name: &Name,
        field_name: &Name,
    ) -> Result<&Component<FieldDefinition>, FieldLookupError<'_>>
        ensures found { IfOk result (λ f. IsFieldNamed (schema_tree self.now) type_name.now.text field_name.now.text (component_tree field_definition_tree f.now)) }
        ensures missing { IfErr result (FieldIsMissing (schema_tree self.now) type_name.now.text field_name.now.text) }
    {
        let Some((name, ty)) = self.types.get_key_value(type_name) else {
            return Err(FieldLookupError::NoSuchType);
        };
        match self.field_on(type_name, ty, field_name) {
            None => Err(FieldLookupError::NoSuchField(name, ty)),
            Some(field) => Ok(field),
        }
    }

    /// The field of that name of a type, which the schema has under the name `type_name`: an explicit one, or else the
    /// meta-field. It is the one that [`Schema::type_field`] returns, without another lookup of the type.
    pub fn field_on<'schema>(
        &'schema self,
        type_name: &Name,
        ty: &'schema ExtendedType,
        name: &Name,
    ) -> Option<&'schema Component<FieldDefinition>>
        ensures { IsFieldOn (schema_tree self.now) type_name.now.text (extended_type ty.now) name.now.text result }
    {
        let is_composite = matches!(
            ty,
            ExtendedType::Object(_) | ExtendedType::Interface(_) | ExtendedType::Union(_)
        );
        match field_of(ty, name) {
            // An explicit field comes first, even if its name is reserved: a rule tells that.
            Some(field) => Some(field),
            None => self.meta_field(is_composite, type_name, name),
        }
    }

    /// The meta-field of that name of a type of that name, which is composite or not.
    fn meta_field(
        &self,
        is_composite: bool,
        type_name: &Name,
        name: &Name,
    ) -> Option<&Component<FieldDefinition>>
        ensures { lent_field result ≡ option_map by_definition (meta_field_of is_composite (is_composite && is_query_root (schema_tree self.now) type_name.now.text) name.now.text) }
    {
        // type names are compared last: they may be long
        match name.as_str() {
            "__typename" if is_composite => Some(&self.meta_fields.typename),
            "__schema" if is_composite && self.is_query_root(type_name) => {
                Some(&self.meta_fields.schema)
            }
            "__type" if is_composite && self.is_query_root(type_name) => {
                Some(&self.meta_fields.type_by_name)
            }
            _ => None,
        }
    }

    /// Whether the schema definition names that type as the query root.
    fn is_query_root(&self, type_name: &Name) -> bool
        ensures { result ≡ is_query_root (schema_tree self.now) type_name.now.text }
    {
        match &self.schema_definition.content().query {
            None => false,
            Some(root) => *type_name == root.name,
        }
    }
}

/// The field of that name of an object or an interface.
fn field_of<'schema>(
    ty: &'schema ExtendedType,
    name: &Name,
) -> Option<&'schema Component<FieldDefinition>>
    ensures { lent_field result ≡ under name.now.text (extended_type ty.now).fields }
{
    match ty {
        ExtendedType::Object(object) => object.content().fields.get(name),
        ExtendedType::Interface(interface) => interface.content().fields.get(name),
        _ => None,
    }
}
