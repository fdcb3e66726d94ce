//! What directives and types refer to (section 3.13).
ghost use Rattle.std.specs.Prelude.{◌≡◌, map, IfOk, OnOk};
ghost use Rattle.graphql_names.specs.Placed.{node_tree};
ghost use Rattle.tree_literals.specs.TypeTree.{type_tree};
ghost use Rattle.tree_directives.specs.DirectiveTree.{directive_tree, directives_tree, input_value_tree};
ghost use Rattle.schema_types.specs.TypeView.{extended_type};
ghost use Rattle.graphql_schema.specs.SchemaOf.{schema_tree};
ghost use Rattle.rule_cycles.specs.Numbers.{each_value};
ghost use Rattle.rule_cycles.specs.UseNumbers.{use_references, uses_references, type_reference, input_uses, arguments_uses, part_uses, uses_at};
ghost use Rattle.rule_cycles.specs.UseGraph.{AreUseReferences};
ghost use Rattle.rule_cycles.specs.UseViews.{use_view, value_uses, field_uses, AddsUses, applied_uses, numbered_type_uses, numbered_definition_uses};

use crate::numbers::type_node;
use crate::references::{BOUND, Reference, References};
use graphql_names::{Name, Node};
use graphql_schema::Schema;
use indexmap::IndexMap;
use schema_components::Component;
use schema_types::ExtendedType;
use std::alloc::{AllocError, Global};
use tree_directives::{Directive, DirectiveList, InputValueDefinition};
use tree_literals::Type;
use tree_type_members::EnumValueDefinition;

/// A reference to a directive or type by number, with the applied directive that makes it: None for a reference to a type.
pub(crate) type UseReference = Reference<Option<Node<Directive>>>;

/// What directives and types refer to, and the first label by which each refers to another.
pub(crate) type UseReferences = References<Option<Node<Directive>>>;

/// Adds the reference of a directive that is applied, if that is defined.
fn add_use(
    schema: &Schema,
    directive: &Node<Directive>,
    references: &mut Vec<UseReference>,
) -> Result<(), AllocError>
    ensures { OnOk result (AddsUses references.old references.new (use_references (schema_tree schema.now) (node_tree directive_tree directive.now))) }
{
    match schema
        .directive_definitions
        .get_index_of(&directive.content().name)
    {
        None => Ok(()),
        Some(to) => {
            let by = Some(directive.clone()?);
            references.push(Reference { to, by })?;
            Ok(())
        }
    }
}

/// Adds the references of directives that are applied.
fn add_uses(
    schema: &Schema,
    directives: &DirectiveList,
    references: &mut Vec<UseReference>,
) -> Result<(), AllocError>
    ensures { OnOk result (AddsUses references.old references.new (uses_references (schema_tree schema.now) (directives_tree directives.now))) }
{
    for directive in &directives.0 {
        add_use(schema, directive, references)?;
    }
    Ok(())
}

/// Adds the reference to a type, if it is defined.
fn add_type(
    schema: &Schema,
    ty: &Type,
    references: &mut Vec<UseReference>,
) -> Result<(), AllocError>
    ensures { OnOk result (AddsUses references.old references.new (type_reference (schema_tree schema.now) (type_tree ty.now))) }
{
    match type_node(schema, ty.inner_named_type()) {
        None => Ok(()),
        Some(to) => {
            references.push(Reference { to, by: None })?;
            Ok(())
        }
    }
}

/// Adds the references of an argument's definition or an input field: its directives, and its type.
fn add_input_value(
    schema: &Schema,
    value: &InputValueDefinition,
    references: &mut Vec<UseReference>,
) -> Result<(), AllocError>
    ensures { OnOk result (AddsUses references.old references.new (input_uses (schema_tree schema.now) (input_value_tree value.now))) }
{
    add_uses(schema, &value.directives, references)?;
    add_type(schema, value.ty.content(), references)
}

/// Adds the references of arguments' definitions.
fn add_arguments(
    schema: &Schema,
    arguments: &[Node<InputValueDefinition>],
    references: &mut Vec<UseReference>,
) -> Result<(), AllocError>
    ensures { OnOk result (AddsUses references.old references.new (arguments_uses (schema_tree schema.now) (map (node_tree input_value_tree) arguments.now))) }
{
    for argument in arguments {
        add_input_value(schema, argument.content(), references)?;
    }
    Ok(())
}

/// Adds the references of the directives that are applied to a type.
fn add_component_uses(
    schema: &Schema,
    directives: &schema_components::DirectiveList,
    references: &mut Vec<UseReference>,
) -> Result<(), AllocError>
    ensures { OnOk result (AddsUses references.old references.new (applied_uses (schema_tree schema.now) directives.now)) }
{
    for directive in &directives.0 {
        add_use(schema, &directive.node, references)?;
    }
    Ok(())
}

/// Adds the references of the values of an enum.
fn add_values(
    schema: &Schema,
    values: &IndexMap<Name, Component<EnumValueDefinition>>,
    references: &mut Vec<UseReference>,
) -> Result<(), AllocError>
    ensures { OnOk result (AddsUses references.old references.new (each_value (value_uses (schema_tree schema.now)) values.now.entries)) }
{
    for (_, value) in values {
        add_uses(schema, &value.node.content().directives, references)?;
    }
    Ok(())
}

/// Adds the references of the fields of an input object.
fn add_fields(
    schema: &Schema,
    fields: &IndexMap<Name, Component<InputValueDefinition>>,
    references: &mut Vec<UseReference>,
) -> Result<(), AllocError>
    ensures { OnOk result (AddsUses references.old references.new (each_value (field_uses (schema_tree schema.now)) fields.now.entries)) }
{
    for (_, field) in fields {
        add_input_value(schema, field.node.content(), references)?;
    }
    Ok(())
}

/// Adds the references of the parts of a type: the values of an enum, the fields of an input object.
fn add_parts(
    schema: &Schema,
    ty: &ExtendedType,
    references: &mut Vec<UseReference>,
) -> Result<(), AllocError>
    ensures { OnOk result (AddsUses references.old references.new (part_uses (schema_tree schema.now) (extended_type ty.now))) }
{
    match ty {
        ExtendedType::Enum(own) => add_values(schema, &own.content().values, references),
        ExtendedType::InputObject(own) => add_fields(schema, &own.content().fields, references),
        _ => Ok(()),
    }
}

/// Adds the references of the type of that number: its directives, and those of its parts.
fn add_type_uses(
    schema: &Schema,
    number: usize,
    references: &mut Vec<UseReference>,
) -> Result<(), AllocError>
    ensures { OnOk result (AddsUses references.old references.new (numbered_type_uses (schema_tree schema.now) number)) }
{
    match schema.types.get_index(number) {
        None => Ok(()),
        Some((_, ty)) => {
            add_component_uses(schema, ty.directives(), references)?;
            add_parts(schema, ty, references)
        }
    }
}

/// Adds the references of the directive of that number: those of its arguments, and its directives.
fn add_directive_uses(
    schema: &Schema,
    number: usize,
    references: &mut Vec<UseReference>,
) -> Result<(), AllocError>
    ensures { OnOk result (AddsUses references.old references.new (numbered_definition_uses (schema_tree schema.now) number)) }
{
    match schema.directive_definitions.get_index(number) {
        None => Ok(()),
        Some((_, node)) => {
            let definition = node.content();
            add_arguments(schema, &definition.arguments, references)?;
            add_uses(schema, &definition.directives, references)
        }
    }
}

/// Adds the references of the directive or type of that node.
fn add_node_uses(
    schema: &Schema,
    node: usize,
    references: &mut Vec<UseReference>,
) -> Result<(), AllocError>
    ensures { OnOk result (AddsUses references.old references.new (uses_at (schema_tree schema.now) node)) }
{
    let directives = schema.directive_definitions.len();
    if node < directives {
        return add_directive_uses(schema, node, references);
    }
    add_type_uses(schema, node - directives, references)
}

/// The references of the directive or type of that node.
pub(crate) fn use_references(
    alloc: Global,
    schema: &Schema,
    node: usize,
) -> Result<Vec<UseReference>, AllocError>
    ensures { IfOk result (λ r. map use_view r.items ≡ uses_at (schema_tree schema.now) node) }
{
    let mut references = Vec::new(alloc);
    add_node_uses(schema, node, &mut references)?;
    Ok(references)
}

/// What each directive and each type refers to: directives by their arguments and directives, types by their directives,
/// values and input fields.
pub(crate) fn references_of_definitions(
    alloc: Global,
    schema: &Schema,
) -> Result<UseReferences, AllocError>
    ensures { IfOk result (λ r. AreUseReferences (schema_tree schema.now) r) }
{
    let roots = schema.directive_definitions.len();
    let nodes = roots + schema.types.len();
    let mut all = References::new(alloc, roots, roots, BOUND);
    for node in 0..nodes {
        all.push(alloc, use_references(alloc, schema, node)?)?;
    }
    Ok(all)
}
