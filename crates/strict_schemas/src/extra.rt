//! ExtraRequiredArgument: arguments that take no null, and that the fields of interfaces do not have (section 3.6).
//!
//! For each interface that a type lists, each field of the interface is read once, with its arguments and those of the type's
//! field of that name. Names of many arguments are found by their numbers.
ghost use Rattle.std.specs.Prelude.{◌≡◌, IfSome, OnOk};
ghost use Rattle.std.specs.List.{list_any};
ghost use Rattle.graphql_names.specs.Placed.{node_tree};
ghost use Rattle.tree_directives.specs.DirectiveTree.{input_value_tree, input_value_trees};
ghost use Rattle.tree_directives.specs.DirectiveQueries.{input_value_has_name};
ghost use Rattle.schema_components.specs.Given.{component_name_tree};
ghost use Rattle.schema_inputs.specs.Firsts.{AreNumbers};
ghost use Rattle.schema_inputs.specs.Inputs.{input_name};
ghost use Rattle.schema_types.specs.TypeView.{extended_type};
ghost use Rattle.graphql_schema.specs.SchemaOf.{schema_tree};
ghost use Rattle.strict_documents.specs.DepartureViews.{Tells};
ghost use Rattle.strict_schemas.specs.Departing.{is_extra, extra_departure, extra_over_field, extra_over, extra_departures};
ghost use Rattle.strict_schemas.specs.Told.{field_entry, extra_arguments_of, extra_fields_of};

use crate::parts::{field_named, interfaces_of};
use crate::telling::tell_if;
use graphql_names::{Name, Node};
use graphql_schema::Schema;
use indexmap::IndexMap;
use schema_components::{Component, ComponentName};
use schema_inputs::{FEW, definition_numbers};
use schema_types::ExtendedType;
use std::alloc::AllocError;
use strict_documents::{Departure, DepartureKind};
use tree_directives::InputValueDefinition;
use tree_type_members::FieldDefinition;

/// Whether one of these arguments has that name; the list is scanned.
fn is_listed(arguments: &[Node<InputValueDefinition>], name: &Name) -> bool
    ensures { result ≡ list_any (input_value_has_name name.now.text) (input_value_trees arguments.now) }
{
    for argument in arguments {
        if argument.content().name.as_str() == name.as_str() {
            return true;
        }
    }
    false
}

/// Whether one of these arguments has that name; `numbers` has the index of each name, if they are many.
fn has_argument(
    arguments: &[Node<InputValueDefinition>],
    numbers: Option<&IndexMap<Name, usize>>,
    name: &Name,
) -> bool
    requires { IfSome numbers (λ numbers. AreNumbers input_name numbers.now (input_value_trees arguments.now)) }
    ensures { result ≡ list_any (input_value_has_name name.now.text) (input_value_trees arguments.now) }
{
    match numbers {
        None => is_listed(arguments, name),
        Some(numbers) => numbers.get(name).is_some(),
    }
}

/// Whether an argument has a `!` and a default, and is none of those that the interface's field has.
fn is_extra(
    wanted: &[Node<InputValueDefinition>],
    numbers: Option<&IndexMap<Name, usize>>,
    argument: &InputValueDefinition,
) -> bool
    requires { IfSome numbers (λ numbers. AreNumbers input_name numbers.now (input_value_trees wanted.now)) }
    ensures { result ≡ is_extra (input_value_trees wanted.now) (input_value_tree argument.now) }
{
    if !argument.ty.content().is_non_null() || argument.default_value.is_none() {
        return false;
    }
    !has_argument(wanted, numbers, &argument.name)
}

/// ExtraRequiredArgument: an argument that the interface's field does not have is of a type without `!` (section 3.6).
fn tell_extra_argument(
    wanted: &[Node<InputValueDefinition>],
    numbers: Option<&IndexMap<Name, usize>>,
    argument: &Node<InputValueDefinition>,
    departures: &mut Vec<Departure>,
) -> Result<(), AllocError>
    requires { IfSome numbers (λ numbers. AreNumbers input_name numbers.now (input_value_trees wanted.now)) }
    ensures { OnOk result (Tells departures.old departures.new (extra_departure (input_value_trees wanted.now) (node_tree input_value_tree argument.now))) }
{
    let own = argument.content();
    let is_told = is_extra(wanted, numbers, own);
    let kind = DepartureKind::ExtraRequiredArgument;
    tell_if(is_told, argument.location(), kind, &own.name, departures)
}

/// Adds those of these arguments of a field that are extra over those of the interface's field.
fn tell_each_argument(
    wanted: &[Node<InputValueDefinition>],
    numbers: Option<&IndexMap<Name, usize>>,
    own: &[Node<InputValueDefinition>],
    departures: &mut Vec<Departure>,
) -> Result<(), AllocError>
    requires { IfSome numbers (λ numbers. AreNumbers input_name numbers.now (input_value_trees wanted.now)) }
    ensures { OnOk result (Tells departures.old departures.new (extra_arguments_of wanted.now own.now)) }
{
    for argument in own {
        tell_extra_argument(wanted, numbers, argument, departures)?;
    }
    Ok(())
}

/// The same. If the interface's field has many arguments, the index of each name is found first.
fn tell_extra_arguments(
    wanted: &[Node<InputValueDefinition>],
    own: &[Node<InputValueDefinition>],
    departures: &mut Vec<Departure>,
) -> Result<(), AllocError>
    ensures { OnOk result (Tells departures.old departures.new (extra_arguments_of wanted.now own.now)) }
{
    if wanted.len() <= FEW {
        return tell_each_argument(wanted, None, own, departures);
    }
    let numbers = definition_numbers(*departures.allocator(), wanted)?;
    tell_each_argument(wanted, Some(&numbers), own, departures)
}

/// Adds the extra arguments of a type over a field of an interface.
fn tell_over_field(
    ty: &ExtendedType,
    name: &Name,
    wanted: &Component<FieldDefinition>,
    departures: &mut Vec<Departure>,
) -> Result<(), AllocError>
    ensures { OnOk result (Tells departures.old departures.new (extra_over_field (extended_type ty.now) (field_entry (name.now, wanted.now)))) }
{
    match field_named(ty, name) {
        None => Ok(()),
        Some(own) => {
            let wanted = wanted.node.content().arguments.as_slice();
            let own = own.node.content().arguments.as_slice();
            tell_extra_arguments(wanted, own, departures)
        }
    }
}

/// Adds the extra arguments of a type over these fields of an interface.
#[tactic(auto, using(crate::proofs::Steps::room_steps))]
fn tell_over_fields(
    ty: &ExtendedType,
    fields: &IndexMap<Name, Component<FieldDefinition>>,
    departures: &mut Vec<Departure>,
) -> Result<(), AllocError>
    ensures { OnOk result (Tells departures.old departures.new (extra_fields_of ty.now fields.now.entries)) }
{
    for (name, wanted) in fields {
        tell_over_field(ty, name, wanted, departures)?;
    }
    Ok(())
}

/// Adds the extra arguments of a type over an interface that it lists.
fn tell_over(
    schema: &Schema,
    ty: &ExtendedType,
    interface: &ComponentName,
    departures: &mut Vec<Departure>,
) -> Result<(), AllocError>
    ensures { OnOk result (Tells departures.old departures.new (extra_over (schema_tree schema.now) (extended_type ty.now) (component_name_tree interface.now))) }
{
    match schema.get_interface(&interface.name) {
        None => Ok(()),
        Some(over) => tell_over_fields(ty, &over.content().fields, departures),
    }
}

/// Adds the extra arguments of a type over each interface that it lists.
pub(crate) fn tell_extra(
    schema: &Schema,
    ty: &ExtendedType,
    departures: &mut Vec<Departure>,
) -> Result<(), AllocError>
    ensures { OnOk result (Tells departures.old departures.new (extra_departures (schema_tree schema.now) (extended_type ty.now))) }
{
    for interface in interfaces_of(ty) {
        tell_over(schema, ty, interface, departures)?;
    }
    Ok(())
}
