//! Directives that are used in a schema.
ghost use Rattle.std.specs.Prelude.{◌≡◌, [], map, IfOk, OnOk};
ghost use Rattle.graphql_names.specs.Node.{content};
ghost use Rattle.tree_type_members.specs.TypeSystemTree.{field_definition_tree, enum_value_tree};
ghost use Rattle.tree_directives.specs.DirectiveTree.{input_value_tree, directive_definition_tree, input_value_trees};
ghost use Rattle.graphql_names.specs.Placed.{node_tree};
ghost use Rattle.schema_components.specs.Names.{entries_of};
ghost use Rattle.schema_components.specs.Given.{component_tree};
ghost use Rattle.schema_components.specs.Applied.{applied_tree};
ghost use Rattle.rule_values.specs.in_schema.in_schema_types.TypeView.{name_text, extended_type};
ghost use Rattle.rule_values.specs.in_schema.in_schema_types.Addresses.{applied};
ghost use Rattle.rule_values.specs.in_schema.SchemaOf.{schema_tree};
ghost use Rattle.rule_values.specs.in_rule_definitions.Judged.{type_location};
ghost use Rattle.rule_values.specs.in_rule_definitions.Rules.{SchemaUsesBreak};
ghost use Rattle.rule_values.specs.in_fault_data.Adds.{Adds};
ghost use Rattle.rule_arguments.specs.Trees.{directives_of};
ghost use Rattle.rule_values.specs.in_rule_definitions.PlacedFaults.{Told};
ghost use Rattle.schema_types.specs.Distinct.{AreAllDistinct};
ghost use Rattle.rule_arguments.specs.SchemaUses.{UsesAt, ArgumentUses, FieldUses, FieldsUses, ValuesUses, InputsUses, OwnUses, PartsUses, TypesUses, OwnDefinitionUses, DefinitionsUses};
ghost use Rattle.rule_arguments.specs.Telling.{fields_of, definitions_of};

use crate::directives::check_uses;
use graphql_names::{Name, Node};
use indexmap::IndexMap;
use rule_values::{DefinedVariables, Fault, IndexedSchema};
use schema_components::{Component, DirectiveList};
use schema_types::{ExtendedType, TypeKind};
use std::alloc::{AllocError, Global};
use tree_directives::{Directive, DirectiveDefinition, DirectiveLocation, InputValueDefinition};
use tree_type_members::{EnumValueDefinition, FieldDefinition};

/// The nodes of applied directives, in order.
fn nodes_of(alloc: Global, list: &DirectiveList) -> Result<Vec<Node<Directive>>, AllocError>
    ensures { IfOk result (λ v. directives_of v.items ≡ map (λ g. g.it) (applied_tree list.now)) }
{
    let mut nodes = Vec::new(alloc);
    for directive in &list.0 {
        nodes.push(directive.node.clone()?)?;
    }
    Ok(nodes)
}

/// The location of the directives of a type of that kind.
fn type_location(kind: TypeKind) -> DirectiveLocation
    ensures { result ≡ type_location kind }
{
    match kind {
        TypeKind::Scalar => DirectiveLocation::Scalar,
        TypeKind::Object => DirectiveLocation::Object,
        TypeKind::Interface => DirectiveLocation::Interface,
        TypeKind::Union => DirectiveLocation::Union,
        TypeKind::Enum => DirectiveLocation::Enum,
        TypeKind::InputObject => DirectiveLocation::InputObject,
    }
}

/// Adds the faults of directives at one place, where there are no variables.
fn check_at(
    schema: &IndexedSchema<'_>,
    directives: &[Node<Directive>],
    location: DirectiveLocation,
    faults: &mut Vec<Fault>,
) -> Result<(), AllocError>
    ensures { OnOk result (Adds faults.old faults.new (UsesAt (schema_tree schema.now) location (directives_of directives.now))) }
{
    let variables = DefinedVariables::listed(&[]);
    check_uses(schema, directives, location, &variables, faults)
}

/// The same for the directives that definitions and extensions give a schema or a type.
fn check_applied(
    schema: &IndexedSchema<'_>,
    list: &DirectiveList,
    location: DirectiveLocation,
    faults: &mut Vec<Fault>,
) -> Result<(), AllocError>
    ensures { OnOk result (Adds faults.old faults.new (UsesAt (schema_tree schema.now) location (applied (schema_tree schema.now) (applied_tree list.now)))) }
{
    let nodes = nodes_of(*faults.allocator(), list)?;
    check_at(schema, &nodes, location, faults)
}

/// Adds the faults at argument definitions.
fn check_arguments(
    schema: &IndexedSchema<'_>,
    definitions: &[Node<InputValueDefinition>],
    faults: &mut Vec<Fault>,
) -> Result<(), AllocError>
    ensures { OnOk result (Adds faults.old faults.new (ArgumentUses (schema_tree schema.now) (input_value_trees definitions.now))) }
{
    for definition in definitions {
        check_at(
            schema,
            &definition.content().directives.0,
            DirectiveLocation::ArgumentDefinition,
            faults,
        )?;
    }
    Ok(())
}

/// Adds the faults at a field and its arguments.
fn check_field(
    schema: &IndexedSchema<'_>,
    field: &FieldDefinition,
    faults: &mut Vec<Fault>,
) -> Result<(), AllocError>
    ensures { OnOk result (Adds faults.old faults.new (FieldUses (schema_tree schema.now) (field_definition_tree field.now))) }
{
    check_at(
        schema,
        &field.directives.0,
        DirectiveLocation::FieldDefinition,
        faults,
    )?;
    check_arguments(schema, &field.arguments, faults)
}

/// Adds the faults at fields.
fn check_fields(
    schema: &IndexedSchema<'_>,
    fields: &IndexMap<Name, Component<FieldDefinition>>,
    faults: &mut Vec<Fault>,
) -> Result<(), AllocError>
    ensures { OnOk result (Adds faults.old faults.new (FieldsUses (schema_tree schema.now) (fields_of fields.now))) }
{
    for (_, field) in fields {
        check_field(schema, field.node.content(), faults)?;
    }
    Ok(())
}

/// Adds the faults at the values of an enum.
fn check_values(
    schema: &IndexedSchema<'_>,
    values: &IndexMap<Name, Component<EnumValueDefinition>>,
    faults: &mut Vec<Fault>,
) -> Result<(), AllocError>
    ensures { OnOk result (Adds faults.old faults.new (ValuesUses (schema_tree schema.now) (entries_of name_text (component_tree enum_value_tree) values.now))) }
{
    for (_, value) in values {
        check_at(
            schema,
            &value.node.content().directives.0,
            DirectiveLocation::EnumValue,
            faults,
        )?;
    }
    Ok(())
}

/// Adds the faults at the fields of an input object.
fn check_inputs(
    schema: &IndexedSchema<'_>,
    fields: &IndexMap<Name, Component<InputValueDefinition>>,
    faults: &mut Vec<Fault>,
) -> Result<(), AllocError>
    ensures { OnOk result (Adds faults.old faults.new (InputsUses (schema_tree schema.now) (entries_of name_text (component_tree input_value_tree) fields.now))) }
{
    for (_, field) in fields {
        check_at(
            schema,
            &field.node.content().directives.0,
            DirectiveLocation::InputFieldDefinition,
            faults,
        )?;
    }
    Ok(())
}

/// Adds the faults at a type itself. Those of the built-in scalars are not judged.
fn check_own(
    schema: &IndexedSchema<'_>,
    ty: &ExtendedType,
    faults: &mut Vec<Fault>,
) -> Result<(), AllocError>
    ensures { OnOk result (Adds faults.old faults.new (OwnUses (schema_tree schema.now) (extended_type ty.now))) }
{
    if ty.is_scalar() && ty.is_built_in() {
        return Ok(());
    }
    check_applied(schema, ty.directives(), type_location(ty.kind()), faults)
}

/// Adds the faults at the parts of a type.
fn check_parts(
    schema: &IndexedSchema<'_>,
    ty: &ExtendedType,
    faults: &mut Vec<Fault>,
) -> Result<(), AllocError>
    ensures { OnOk result (Adds faults.old faults.new (PartsUses (schema_tree schema.now) (extended_type ty.now))) }
{
    match ty {
        ExtendedType::Object(own) => check_fields(schema, &own.content().fields, faults),
        ExtendedType::Interface(own) => check_fields(schema, &own.content().fields, faults),
        ExtendedType::Enum(own) => check_values(schema, &own.content().values, faults),
        ExtendedType::InputObject(own) => check_inputs(schema, &own.content().fields, faults),
        ExtendedType::Scalar(_) | ExtendedType::Union(_) => Ok(()),
    }
}

/// Adds the faults at types and their parts.
fn check_types(
    schema: &IndexedSchema<'_>,
    types: &IndexMap<Name, ExtendedType>,
    faults: &mut Vec<Fault>,
) -> Result<(), AllocError>
    ensures { OnOk result (Adds faults.old faults.new (TypesUses (schema_tree schema.now) (entries_of name_text extended_type types.now))) }
{
    for (_, ty) in types {
        check_own(schema, ty, faults)?;
        check_parts(schema, ty, faults)?;
    }
    Ok(())
}

/// Adds the faults at the definition of a directive itself. Those of the built-in directives are not judged.
fn check_own_definition(
    schema: &IndexedSchema<'_>,
    definition: &Node<DirectiveDefinition>,
    faults: &mut Vec<Fault>,
) -> Result<(), AllocError>
    ensures { OnOk result (Adds faults.old faults.new (OwnDefinitionUses (schema_tree schema.now) (node_tree directive_definition_tree definition.now))) }
{
    if definition.is_built_in() {
        return Ok(());
    }
    check_at(
        schema,
        &definition.content().directives.0,
        DirectiveLocation::DirectiveDefinition,
        faults,
    )
}

/// Adds the faults at directives' definitions and their arguments.
fn check_definitions(
    schema: &IndexedSchema<'_>,
    definitions: &IndexMap<Name, Node<DirectiveDefinition>>,
    faults: &mut Vec<Fault>,
) -> Result<(), AllocError>
    ensures { OnOk result (Adds faults.old faults.new (DefinitionsUses (schema_tree schema.now) (definitions_of definitions.now))) }
{
    for (_, definition) in definitions {
        check_own_definition(schema, definition, faults)?;
        check_arguments(schema, &definition.content().arguments, faults)?;
    }
    Ok(())
}

/// Adds the faults of the directives that are used in the schema: at its definition, at types other than built-in
/// scalars, at fields, arguments, values and input fields, and at definitions of directives other than built-in ones.
/// In the schema no two things of one kind have one name, as in every map.
pub fn check_schema_directives(
    schema: &IndexedSchema<'_>,
    faults: &mut Vec<Fault>,
) -> Result<(), AllocError>
    requires { AreAllDistinct (schema_tree schema.now) }
    ensures { OnOk result (Adds faults.old faults.new (Told (schema_tree schema.now) SchemaUsesBreak)) }
{
    let whole = schema.schema();
    check_applied(
        schema,
        &whole.schema_definition.content().directives,
        DirectiveLocation::Schema,
        faults,
    )?;
    check_types(schema, &whole.types, faults)?;
    check_definitions(schema, &whole.directive_definitions, faults)
}
