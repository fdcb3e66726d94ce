//! What equality of each tree means: exactly that the trees are the same apart from places and sources.
ghost use Rattle.std.specs.Prelude.{◌≡◌, ◌↔◌, IsTrue};
ghost use Rattle.tree_definitions.specs.in_type_members.TypeSystemTree.{enum_value_tree, field_definition_tree, unplaced_enum, unplaced_enum_value, unplaced_field_definition, unplaced_fields, unplaced_input_object, unplaced_scalar, unplaced_schema, unplaced_union};
ghost use Rattle.tree_definitions.specs.in_composite_types.CompositeTree.{object_parts, object_extension_parts, interface_parts, interface_extension_parts, union_parts, union_extension_parts};
ghost use Rattle.tree_definitions.specs.in_input_types.InputTypeTree.{schema_parts, schema_extension_parts, scalar_parts, scalar_extension_parts, enum_parts, enum_extension_parts, input_object_parts, input_object_extension_parts};
ghost use Rattle.graphql_ast.specs.Described.{AreSameDescribed};

pub use tree_definitions::laws::{equal_definitions, equal_documents};
use tree_definitions::{
    EnumTypeDefinition, EnumTypeExtension, EnumValueDefinition, FieldDefinition,
    InputObjectTypeDefinition, InputObjectTypeExtension, InterfaceTypeDefinition,
    InterfaceTypeExtension, ObjectTypeDefinition, ObjectTypeExtension, ScalarTypeDefinition,
    ScalarTypeExtension, SchemaDefinition, SchemaExtension, UnionTypeDefinition,
    UnionTypeExtension,
};

/// Whether two field definitions are equal.
#[tactic(auto, using(tree_definitions::proofs::TreeEquality::equality))]
pub fn equal_field_definitions(a: &FieldDefinition, b: &FieldDefinition) -> bool
    ensures { IsTrue result ↔ (unplaced_field_definition (field_definition_tree a.now) ≡ unplaced_field_definition (field_definition_tree b.now)) }
{
    *a == *b
}

/// Whether two enum value definitions are equal.
#[tactic(auto, using(tree_definitions::proofs::TreeEquality::equality))]
pub fn equal_enum_value_definitions(a: &EnumValueDefinition, b: &EnumValueDefinition) -> bool
    ensures { IsTrue result ↔ (unplaced_enum_value (enum_value_tree a.now) ≡ unplaced_enum_value (enum_value_tree b.now)) }
{
    *a == *b
}

/// Whether two schema definitions are equal.
#[tactic(auto, using(tree_definitions::proofs::TreeEquality::equality))]
pub fn equal_schema_definitions(a: &SchemaDefinition, b: &SchemaDefinition) -> bool
    ensures { IsTrue result ↔ AreSameDescribed unplaced_schema a.now.description (schema_parts a.now) b.now.description (schema_parts b.now) }
{
    *a == *b
}

/// Whether two schema extensions are equal.
#[tactic(auto, using(tree_definitions::proofs::TreeEquality::equality))]
pub fn equal_schema_extensions(a: &SchemaExtension, b: &SchemaExtension) -> bool
    ensures { IsTrue result ↔ (unplaced_schema (schema_extension_parts a.now) ≡ unplaced_schema (schema_extension_parts b.now)) }
{
    *a == *b
}

/// Whether two scalar type definitions are equal.
#[tactic(auto, using(tree_definitions::proofs::TreeEquality::equality))]
pub fn equal_scalar_type_definitions(a: &ScalarTypeDefinition, b: &ScalarTypeDefinition) -> bool
    ensures { IsTrue result ↔ AreSameDescribed unplaced_scalar a.now.description (scalar_parts a.now) b.now.description (scalar_parts b.now) }
{
    *a == *b
}

/// Whether two scalar type extensions are equal.
#[tactic(auto, using(tree_definitions::proofs::TreeEquality::equality))]
pub fn equal_scalar_type_extensions(a: &ScalarTypeExtension, b: &ScalarTypeExtension) -> bool
    ensures { IsTrue result ↔ (unplaced_scalar (scalar_extension_parts a.now) ≡ unplaced_scalar (scalar_extension_parts b.now)) }
{
    *a == *b
}

/// Whether two object type definitions are equal.
#[tactic(auto, using(tree_definitions::proofs::TreeEquality::equality))]
pub fn equal_object_type_definitions(a: &ObjectTypeDefinition, b: &ObjectTypeDefinition) -> bool
    ensures { IsTrue result ↔ AreSameDescribed unplaced_fields a.now.description (object_parts a.now) b.now.description (object_parts b.now) }
{
    *a == *b
}

/// Whether two object type extensions are equal.
#[tactic(auto, using(tree_definitions::proofs::TreeEquality::equality))]
pub fn equal_object_type_extensions(a: &ObjectTypeExtension, b: &ObjectTypeExtension) -> bool
    ensures { IsTrue result ↔ (unplaced_fields (object_extension_parts a.now) ≡ unplaced_fields (object_extension_parts b.now)) }
{
    *a == *b
}

/// Whether two interface type definitions are equal.
#[tactic(auto, using(tree_definitions::proofs::TreeEquality::equality))]
pub fn equal_interface_type_definitions(
    a: &InterfaceTypeDefinition,
    b: &InterfaceTypeDefinition,
) -> bool
    ensures { IsTrue result ↔ AreSameDescribed unplaced_fields a.now.description (interface_parts a.now) b.now.description (interface_parts b.now) }
{
    *a == *b
}

/// Whether two interface type extensions are equal.
#[tactic(auto, using(tree_definitions::proofs::TreeEquality::equality))]
pub fn equal_interface_type_extensions(
    a: &InterfaceTypeExtension,
    b: &InterfaceTypeExtension,
) -> bool
    ensures { IsTrue result ↔ (unplaced_fields (interface_extension_parts a.now) ≡ unplaced_fields (interface_extension_parts b.now)) }
{
    *a == *b
}

/// Whether two union type definitions are equal.
#[tactic(auto, using(tree_definitions::proofs::TreeEquality::equality))]
pub fn equal_union_type_definitions(a: &UnionTypeDefinition, b: &UnionTypeDefinition) -> bool
    ensures { IsTrue result ↔ AreSameDescribed unplaced_union a.now.description (union_parts a.now) b.now.description (union_parts b.now) }
{
    *a == *b
}

/// Whether two union type extensions are equal.
#[tactic(auto, using(tree_definitions::proofs::TreeEquality::equality))]
pub fn equal_union_type_extensions(a: &UnionTypeExtension, b: &UnionTypeExtension) -> bool
    ensures { IsTrue result ↔ (unplaced_union (union_extension_parts a.now) ≡ unplaced_union (union_extension_parts b.now)) }
{
    *a == *b
}

/// Whether two enum type definitions are equal.
#[tactic(auto, using(tree_definitions::proofs::TreeEquality::equality))]
pub fn equal_enum_type_definitions(a: &EnumTypeDefinition, b: &EnumTypeDefinition) -> bool
    ensures { IsTrue result ↔ AreSameDescribed unplaced_enum a.now.description (enum_parts a.now) b.now.description (enum_parts b.now) }
{
    *a == *b
}

/// Whether two enum type extensions are equal.
#[tactic(auto, using(tree_definitions::proofs::TreeEquality::equality))]
pub fn equal_enum_type_extensions(a: &EnumTypeExtension, b: &EnumTypeExtension) -> bool
    ensures { IsTrue result ↔ (unplaced_enum (enum_extension_parts a.now) ≡ unplaced_enum (enum_extension_parts b.now)) }
{
    *a == *b
}

/// Whether two input object type definitions are equal.
#[tactic(auto, using(tree_definitions::proofs::TreeEquality::equality))]
pub fn equal_input_object_type_definitions(
    a: &InputObjectTypeDefinition,
    b: &InputObjectTypeDefinition,
) -> bool
    ensures { IsTrue result ↔ AreSameDescribed unplaced_input_object a.now.description (input_object_parts a.now) b.now.description (input_object_parts b.now) }
{
    *a == *b
}

/// Whether two input object type extensions are equal.
#[tactic(auto, using(tree_definitions::proofs::TreeEquality::equality))]
pub fn equal_input_object_type_extensions(
    a: &InputObjectTypeExtension,
    b: &InputObjectTypeExtension,
) -> bool
    ensures { IsTrue result ↔ (unplaced_input_object (input_object_extension_parts a.now) ≡ unplaced_input_object (input_object_extension_parts b.now)) }
{
    *a == *b
}
