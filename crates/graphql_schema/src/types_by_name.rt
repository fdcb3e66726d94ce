//! Types by name.
ghost use Rattle.std.specs.Prelude.{◌≡◌};
ghost use Rattle.std.specs.Option.{option_map};
ghost use Rattle.graphql_names.specs.Node.{content, place};
ghost use Rattle.tree_literals.specs.TypeTree.{type_tree};
ghost use Rattle.schema_building.specs.in_schema_types.SchemaTree.{is_input_kind, is_output_kind};
ghost use Rattle.schema_building.specs.in_schema_types.TypeView.{extended_type, scalar_type, object_type, interface_type, union_type, enum_type, input_object_type};
ghost use Rattle.schema_building.specs.in_schema_types.Addresses.{type_at};
ghost use Rattle.schema_building.specs.in_schema_types.declared.type_kind.TypeKind.TheVariants as kind;
ghost use Rattle.graphql_schema.specs.SchemaOf.{schema_tree};
ghost use Rattle.graphql_schema.specs.LookUps.{type_of_kind, inner_kind_is};

use crate::schema::Schema;
use graphql_names::{Name, Node};
use schema_writing::{
    EnumType, ExtendedType, InputObjectType, InterfaceType, ObjectType, ScalarType, UnionType,
};
use tree_literals::Type;

impl Schema {
    /// The type of that name, of whichever kind, if there is one.
    pub fn type_named(&self, name: &Name) -> Option<&ExtendedType>
        ensures { option_map (λ t. extended_type t.now) result ≡ type_at (schema_tree self.now) name.now.text }
    {
        self.types.get(name)
    }

    /// The scalar type of that name, if there is one.
    pub fn get_scalar(&self, name: &Name) -> Option<&Node<ScalarType>>
        ensures { option_map (λ n. scalar_type (place n.now) (content n.now)) result ≡ type_of_kind (schema_tree self.now) kind.Scalar name.now.text }
    {
        match self.type_named(name) {
            Some(ty) => ty.as_scalar(),
            None => None,
        }
    }

    /// The object type of that name, if there is one.
    pub fn get_object(&self, name: &Name) -> Option<&Node<ObjectType>>
        ensures { option_map (λ n. object_type (place n.now) (content n.now)) result ≡ type_of_kind (schema_tree self.now) kind.Object name.now.text }
    {
        match self.type_named(name) {
            Some(ty) => ty.as_object(),
            None => None,
        }
    }

    /// The interface type of that name, if there is one.
    pub fn get_interface(&self, name: &Name) -> Option<&Node<InterfaceType>>
        ensures { option_map (λ n. interface_type (place n.now) (content n.now)) result ≡ type_of_kind (schema_tree self.now) kind.Interface name.now.text }
    {
        match self.type_named(name) {
            Some(ty) => ty.as_interface(),
            None => None,
        }
    }

    /// The union type of that name, if there is one.
    pub fn get_union(&self, name: &Name) -> Option<&Node<UnionType>>
        ensures { option_map (λ n. union_type (place n.now) (content n.now)) result ≡ type_of_kind (schema_tree self.now) kind.Union name.now.text }
    {
        match self.type_named(name) {
            Some(ty) => ty.as_union(),
            None => None,
        }
    }

    /// The enum type of that name, if there is one.
    pub fn get_enum(&self, name: &Name) -> Option<&Node<EnumType>>
        ensures { option_map (λ n. enum_type (place n.now) (content n.now)) result ≡ type_of_kind (schema_tree self.now) kind.Enum name.now.text }
    {
        match self.type_named(name) {
            Some(ty) => ty.as_enum(),
            None => None,
        }
    }

    /// The input object type of that name, if there is one.
    pub fn get_input_object(&self, name: &Name) -> Option<&Node<InputObjectType>>
        ensures { option_map (λ n. input_object_type (place n.now) (content n.now)) result ≡ type_of_kind (schema_tree self.now) kind.InputObject name.now.text }
    {
        match self.type_named(name) {
            Some(ty) => ty.as_input_object(),
            None => None,
        }
    }

    /// Whether the type inside all brackets is an input type (section 3.4.2, IsInputType). False if the schema does not
    /// have it.
    pub fn is_input_type(&self, ty: &Type) -> bool
        ensures { result ≡ inner_kind_is (schema_tree self.now) is_input_kind (type_tree ty.now) }
    {
        match self.type_named(ty.inner_named_type()) {
            None => false,
            Some(found) => found.is_input_type(),
        }
    }

    /// Whether the type inside all brackets is an output type (section 3.4.2, IsOutputType). False if the schema does
    /// not have it.
    pub fn is_output_type(&self, ty: &Type) -> bool
        ensures { result ≡ inner_kind_is (schema_tree self.now) is_output_kind (type_tree ty.now) }
    {
        match self.type_named(ty.inner_named_type()) {
            None => false,
            Some(found) => found.is_output_type(),
        }
    }
}
