//! What input objects refer to (section 3.10).
ghost use Rattle.std.specs.Prelude.{◌≡◌, map, IfOk, OnOk};
ghost use Rattle.graphql_names.specs.Placed.{node_tree};
ghost use Rattle.tree_literals.specs.TypeTree.{type_tree};
ghost use Rattle.tree_directives.specs.DirectiveTree.{input_value_tree};
ghost use Rattle.schema_types.specs.TypeView.{extended_type};
ghost use Rattle.graphql_schema.specs.SchemaOf.{schema_tree};
ghost use Rattle.rule_cycles.specs.Numbers.{required_input, field_references, input_references, each_value};
ghost use Rattle.rule_cycles.specs.InputGraph.{AreInputReferences};
ghost use Rattle.rule_cycles.specs.ReferenceViews.{input_reference_view, AddsInputs, references_of_field};
ghost use Rattle.rule_cycles.specs.FaultLists.{input_fields_at};

use crate::numbers::input_object_number;
use crate::references::{BOUND, Reference, References};
use graphql_names::{Name, Node};
use graphql_schema::Schema;
use indexmap::IndexMap;
use schema_components::Component;
use schema_types::ExtendedType;
use std::alloc::{AllocError, Global};
use tree_directives::InputValueDefinition;
use tree_literals::Type;

/// A field by which an input object refers to another, and the number of that one.
pub(crate) type InputReference = Reference<Node<InputValueDefinition>>;

/// What input objects refer to, and the first field by which each refers to another.
pub(crate) type InputReferences = References<Node<InputValueDefinition>>;

/// The number of the input object that a field of this type must hold: `Name!`.
fn required_input(schema: &Schema, ty: &Type) -> Option<usize>
    ensures { result ≡ required_input (schema_tree schema.now).types (type_tree ty.now) }
{
    match ty {
        Type::NonNullNamed(name) => input_object_number(schema, name),
        Type::Named(_) => None,
        Type::List(_) => None,
        Type::NonNullList(_) => None,
    }
}

/// Adds the reference of a field, if it is one.
fn add_field(
    schema: &Schema,
    field: &Node<InputValueDefinition>,
    references: &mut Vec<InputReference>,
) -> Result<(), AllocError>
    ensures { OnOk result (AddsInputs references.old references.new (field_references (schema_tree schema.now).types (node_tree input_value_tree field.now))) }
{
    match required_input(schema, field.content().ty.content()) {
        None => Ok(()),
        Some(to) => {
            let by = field.clone()?;
            references.push(Reference { to, by })?;
            Ok(())
        }
    }
}

/// The references of fields.
fn references_of_fields(
    alloc: Global,
    schema: &Schema,
    fields: &IndexMap<Name, Component<InputValueDefinition>>,
) -> Result<Vec<InputReference>, AllocError>
    ensures { IfOk result (λ r. map input_reference_view r.items ≡ each_value (references_of_field (schema_tree schema.now)) fields.now.entries) }
{
    let mut references = Vec::new(alloc);
    for (_, field) in fields {
        add_field(schema, &field.node, &mut references)?;
    }
    Ok(references)
}

/// The references of a type.
fn references_of_type(
    alloc: Global,
    schema: &Schema,
    ty: &ExtendedType,
) -> Result<Vec<InputReference>, AllocError>
    ensures { IfOk result (λ r. map input_reference_view r.items ≡ input_references (schema_tree schema.now).types (extended_type ty.now)) }
{
    match ty {
        ExtendedType::InputObject(own) => {
            references_of_fields(alloc, schema, &own.content().fields)
        }
        _ => Ok(Vec::new(alloc)),
    }
}

/// The references of the input object of that number.
fn input_references(
    alloc: Global,
    schema: &Schema,
    number: usize,
) -> Result<Vec<InputReference>, AllocError>
    ensures { IfOk result (λ r. map input_reference_view r.items ≡ input_fields_at (schema_tree schema.now) number) }
{
    match schema.types.get_index(number) {
        None => Ok(Vec::new(alloc)),
        Some((_, ty)) => references_of_type(alloc, schema, ty),
    }
}

/// What each type refers to by fields of type `Name!`.
pub(crate) fn references_of_types(
    alloc: Global,
    schema: &Schema,
) -> Result<InputReferences, AllocError>
    ensures { IfOk result (λ r. AreInputReferences (schema_tree schema.now) r) }
{
    let roots = schema.types.len();
    let mut all = References::new(alloc, 0, roots, BOUND);
    for number in 0..roots {
        all.push(alloc, input_references(alloc, schema, number)?)?;
    }
    Ok(all)
}
