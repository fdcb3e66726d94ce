//! What is kept of the arguments and the input fields that a schema defines, if they are many.
ghost use Rattle.std.specs.Prelude.{◌≡◌, ◌++◌, [], map, IfOk, OnOk, IfSome};
ghost use Rattle.graphql_names.specs.Placed.{node_tree};
ghost use Rattle.tree_directives.specs.DirectiveTree.{input_value_tree, input_value_trees, directive_definition_tree};
ghost use Rattle.tree_type_members.specs.TypeSystemTree.{field_definition_tree};
ghost use Rattle.schema_components.specs.Given.{component_tree};
ghost use Rattle.schema_components.specs.Names.{entries_of};
ghost use Rattle.schema_types.specs.TypeView.{extended_type, name_text};
ghost use Rattle.schema_inputs.specs.Firsts.{AreNumbers};
ghost use Rattle.schema_inputs.specs.Inputs.{input_name, if_required, if_field_required, listed_field, required_inputs, AreEach, AreKnownIfMany, AreRequired, IsKnownType};

use crate::firsts::note_first;
use graphql_names::{Name, Node};
use indexmap::IndexMap;
use schema_components::Component;
use schema_types::ExtendedType;
use std::alloc::{AllocError, Global};
use tree_directives::{DirectiveDefinition, InputValueDefinition};
use tree_type_members::FieldDefinition;

/// Up to this many arguments or input fields are scanned at each use.
pub const FEW: usize = 8;

/// What is known of the many arguments of one field or directive.
pub struct KnownArguments {
    /// Under each name the index of the first argument with that name.
    pub(crate) numbers: IndexMap<Name, usize>,
    /// The required arguments, in order.
    pub(crate) required: Vec<Node<InputValueDefinition>>,
}

/// What is known of the arguments of a type's fields and of its input fields, if they are many.
pub(crate) struct KnownType {
    /// What is known of each field's arguments, by the field's index, if they are many. It is empty if no field has many.
    pub(crate) arguments: Vec<Option<KnownArguments>>,
    /// The required fields of an input object that has many fields, in order.
    pub(crate) required: Option<Vec<(Name, Component<InputValueDefinition>)>>,
}

// Not derived: a derived drop is proved again in each crate that drops one.
impl Drop for KnownArguments {
    fn drop(self) {
        let KnownArguments {
            numbers: _,
            required: _,
        } = self;
    }
}

impl Drop for KnownType {
    fn drop(self) {
        let KnownType {
            arguments: _,
            required: _,
        } = self;
    }
}

/// Under each name the index of the first of these definitions with that name.
pub fn definition_numbers(
    alloc: Global,
    definitions: &[Node<InputValueDefinition>],
) -> Result<IndexMap<Name, usize>, AllocError>
    ensures { IfOk result (λ numbers. AreNumbers input_name numbers (input_value_trees definitions.now)) }
{
    let mut numbers = IndexMap::new(alloc);
    for index in 0..definitions.len() {
        note_first(&mut numbers, &definitions[index].content().name, index)?;
    }
    Ok(numbers)
}

/// Puts an argument last, if it is required.
fn push_required(
    required: &mut Vec<Node<InputValueDefinition>>,
    definition: &Node<InputValueDefinition>,
) -> Result<(), AllocError>
    ensures { OnOk result (input_value_trees required.new.items ≡ input_value_trees required.old.items ++ if_required (node_tree input_value_tree definition.now)) }
{
    if !definition.content().is_required() {
        return Ok(());
    }
    required.push(definition.clone()?)?;
    Ok(())
}

/// The required ones of these arguments.
fn required_of(
    alloc: Global,
    definitions: &[Node<InputValueDefinition>],
) -> Result<Vec<Node<InputValueDefinition>>, AllocError>
    ensures { IfOk result (λ required. input_value_trees required.items ≡ required_inputs (input_value_trees definitions.now)) }
{
    let mut required = Vec::new(alloc);
    for definition in definitions {
        push_required(&mut required, definition)?;
    }
    Ok(required)
}

/// What is known of these arguments, if they are many.
fn known_arguments(
    alloc: Global,
    definitions: &[Node<InputValueDefinition>],
) -> Result<Option<KnownArguments>, AllocError>
    ensures { IfOk result (AreKnownIfMany (input_value_trees definitions.now)) }
{
    if definitions.len() <= FEW {
        return Ok(None);
    }
    let numbers = definition_numbers(alloc, definitions)?;
    let required = required_of(alloc, definitions)?;
    Ok(Some(KnownArguments { numbers, required }))
}

/// What is known of the arguments of each of these directives.
pub(crate) fn known_directives(
    alloc: Global,
    definitions: &IndexMap<Name, Node<DirectiveDefinition>>,
) -> Result<Vec<Option<KnownArguments>>, AllocError>
    ensures { IfOk result (λ r. AreEach (λ e arguments. AreKnownIfMany e.1.it.arguments arguments) (entries_of name_text (node_tree directive_definition_tree) definitions.now) r.items) }
{
    let mut known = Vec::new(alloc);
    for (_, definition) in definitions {
        known.push(known_arguments(alloc, &definition.content().arguments)?)?;
    }
    Ok(known)
}

/// Whether one of these fields takes many arguments. This is tested to save memory.
fn some_takes_many(fields: &IndexMap<Name, Component<FieldDefinition>>) -> bool {
    for (_, field) in fields {
        if field.node.content().arguments.len() > FEW {
            return true;
        }
    }
    false
}

/// What is known of the arguments of each of these fields, if one of them takes many.
fn known_fields(
    alloc: Global,
    fields: &IndexMap<Name, Component<FieldDefinition>>,
) -> Result<Vec<Option<KnownArguments>>, AllocError>
    ensures { IfOk result (λ r. AreEach (λ e arguments. AreKnownIfMany e.1.it.it.arguments arguments) (entries_of name_text (component_tree field_definition_tree) fields.now) r.items) }
{
    if some_takes_many(fields) {
        known_each_field(alloc, fields)
    } else {
        Ok(Vec::new(alloc))
    }
}

/// What is known of the arguments of each of these fields.
fn known_each_field(
    alloc: Global,
    fields: &IndexMap<Name, Component<FieldDefinition>>,
) -> Result<Vec<Option<KnownArguments>>, AllocError>
    ensures { IfOk result (λ r. AreEach (λ e arguments. AreKnownIfMany e.1.it.it.arguments arguments) (entries_of name_text (component_tree field_definition_tree) fields.now) r.items) }
{
    let mut known = Vec::new(alloc);
    for (_, field) in fields {
        known.push(known_arguments(alloc, &field.node.content().arguments)?)?;
    }
    Ok(known)
}

/// Puts a field of an input object last, if it is required.
fn push_required_field(
    required: &mut Vec<(Name, Component<InputValueDefinition>)>,
    name: &Name,
    field: &Component<InputValueDefinition>,
) -> Result<(), AllocError>
    ensures { OnOk result (map listed_field required.new.items ≡ map listed_field required.old.items ++ if_field_required (name.now.text, component_tree input_value_tree field.now)) }
{
    if !field.node.content().is_required() {
        return Ok(());
    }
    let name = name.clone()?;
    required.push((name, field.clone()?))?;
    Ok(())
}

/// The required ones of these fields of an input object.
fn required_fields(
    alloc: Global,
    fields: &IndexMap<Name, Component<InputValueDefinition>>,
) -> Result<Vec<(Name, Component<InputValueDefinition>)>, AllocError>
    ensures { IfOk result (λ required. AreRequired (entries_of name_text (component_tree input_value_tree) fields.now) required.items) }
{
    let mut required = Vec::new(alloc);
    for (name, field) in fields {
        push_required_field(&mut required, name, field)?;
    }
    Ok(required)
}

/// The required ones of these fields of an input object, if the fields are many.
fn known_input_fields(
    alloc: Global,
    fields: &IndexMap<Name, Component<InputValueDefinition>>,
) -> Result<KnownType, AllocError>
    ensures fields { IfOk result (λ r. IfSome r.required (λ required. AreRequired (entries_of name_text (component_tree input_value_tree) fields.now) required.items)) }
    ensures arguments { IfOk result (λ r. r.arguments.items ≡ []) }
{
    let arguments = Vec::new(alloc);
    if fields.len() <= FEW {
        return Ok(KnownType {
            arguments,
            required: None,
        });
    }
    let required = Some(required_fields(alloc, fields)?);
    Ok(KnownType {
        arguments,
        required,
    })
}

/// What is known of a type.
fn known_type(alloc: Global, ty: &ExtendedType) -> Result<KnownType, AllocError>
    ensures { IfOk result (IsKnownType (extended_type ty.now)) }
{
    let arguments = match ty {
        ExtendedType::Object(own) => known_fields(alloc, &own.content().fields)?,
        ExtendedType::Interface(own) => known_fields(alloc, &own.content().fields)?,
        ExtendedType::InputObject(own) => return known_input_fields(alloc, &own.content().fields),
        ExtendedType::Scalar(_) | ExtendedType::Union(_) | ExtendedType::Enum(_) => {
            Vec::new(alloc)
        }
    };
    Ok(KnownType {
        arguments,
        required: None,
    })
}

/// What is known of each of these types.
pub(crate) fn known_types(
    alloc: Global,
    types: &IndexMap<Name, ExtendedType>,
) -> Result<Vec<KnownType>, AllocError>
    ensures { IfOk result (λ r. AreEach (λ e known. IsKnownType e.1 known) (entries_of name_text extended_type types.now) r.items) }
{
    let mut known = Vec::new(alloc);
    for (_, ty) in types {
        known.push(known_type(alloc, ty)?)?;
    }
    Ok(known)
}
