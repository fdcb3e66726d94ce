//! The rules on the parts of a type: fields, members, values or input fields.
ghost use Rattle.std.specs.Prelude.{OnOk};
ghost use Rattle.graphql_names.specs.Placed.{name_tree, node_tree};
ghost use Rattle.tree_type_members.specs.TypeSystemTree.{enum_value_tree};
ghost use Rattle.schema_types.specs.TypeView.{extended_type};
ghost use Rattle.rule_types.specs.Adds.{AddsThese};
ghost use Rattle.rule_types.specs.FaultLists.{value_faults, values_faults, field_type_faults, field_faults, member_faults, input_faults, fields_faults, union_faults, each_input_faults, inputs_faults};
ghost use Rattle.rule_types.specs.Trees.{schema_of, input_tree, field_tree};

use crate::arguments::{check_arguments, check_input_value};
use crate::empty::{empty_field_set, empty_input_value_set, empty_member_set, empty_value_set};
use crate::look_ups::{kind_inside, kind_named};
use crate::reserved::{Named, reserved_name};
use crate::rule_context::RuleContext;
use crate::types_used::{output_type, undefined_name, undefined_type, union_member_object_type};
use fault_data::Fault;
use graphql_names::{Name, Node};
use indexmap::{IndexMap, IndexSet};
use schema_components::{Component, ComponentName};
use schema_types::ExtendedType;
use std::alloc::AllocError;
use tree_directives::InputValueDefinition;
use tree_type_members::{EnumValueDefinition, FieldDefinition};

/// Tells the faults of the fields of an object or interface.
#[tactic(auto, using(crate::proofs::RoomSteps::room_steps))]
pub(crate) fn check_fields(
    judging: &RuleContext<'_>,
    name: &Name,
    ty: &ExtendedType,
    fields: &IndexMap<Name, Component<FieldDefinition>>,
    faults: &mut Vec<Fault>,
) -> Result<(), AllocError>
    ensures { OnOk result (AddsThese faults.old faults.new (fields_faults (schema_of judging.now) name.now.text (extended_type ty.now) fields.now.entries)) }
{
    empty_field_set(judging, name, ty, fields, faults)?;
    for (field_name, field) in fields {
        check_field(judging, field_name, &field.node, faults)?;
    }
    Ok(())
}

/// Tells the faults of a field.
fn check_field(
    judging: &RuleContext<'_>,
    name: &Name,
    field: &Node<FieldDefinition>,
    faults: &mut Vec<Fault>,
) -> Result<(), AllocError>
    ensures { OnOk result (AddsThese faults.old faults.new (field_faults (schema_of judging.now) name.now.text (field_tree field.now))) }
{
    check_field_type(judging, name, field, faults)?;
    check_arguments(judging, &field.content().arguments, faults)
}

/// Tells the faults of the name and the type of a field.
#[tactic(auto, using(crate::proofs::RoomSteps::room_steps))]
fn check_field_type(
    judging: &RuleContext<'_>,
    name: &Name,
    field: &Node<FieldDefinition>,
    faults: &mut Vec<Fault>,
) -> Result<(), AllocError>
    ensures { OnOk result (AddsThese faults.old faults.new (field_type_faults (schema_of judging.now) name.now.text (field_tree field.now))) }
{
    let content = field.content();
    let kind = kind_inside(judging, &content.ty);
    reserved_name(
        field.is_built_in(),
        name,
        content.name.location(),
        Named::Field.describe(),
        faults,
    )?;
    // At most one of these two tells a fault: a type that is not defined has no kind.
    undefined_type(&content.ty, kind, faults)?;
    output_type(name, field, kind, faults)
}

/// Tells the faults of the members of a union.
#[tactic(auto, using(crate::proofs::RoomSteps::room_steps))]
pub(crate) fn check_members(
    judging: &RuleContext<'_>,
    name: &Name,
    ty: &ExtendedType,
    members: &IndexSet<ComponentName>,
    faults: &mut Vec<Fault>,
) -> Result<(), AllocError>
    ensures { OnOk result (AddsThese faults.old faults.new (union_faults (schema_of judging.now) name.now.text (extended_type ty.now) members.now.keys)) }
{
    empty_member_set(judging, name, ty, members, faults)?;
    for member in members.as_slice() {
        check_member(judging, &member.name, faults)?;
    }
    Ok(())
}

/// Tells the faults of a member of a union.
#[tactic(auto, using(crate::proofs::RoomSteps::room_steps))]
fn check_member(
    judging: &RuleContext<'_>,
    member: &Name,
    faults: &mut Vec<Fault>,
) -> Result<(), AllocError>
    ensures { OnOk result (AddsThese faults.old faults.new (member_faults (schema_of judging.now) (name_tree member.now))) }
{
    let kind = kind_named(judging, member);
    undefined_name(member, kind, faults)?;
    union_member_object_type(member, kind, faults)
}

/// Tells the faults of the values of an enum.
#[tactic(auto, using(crate::proofs::RoomSteps::room_steps))]
pub(crate) fn check_values(
    judging: &RuleContext<'_>,
    name: &Name,
    ty: &ExtendedType,
    values: &IndexMap<Name, Component<EnumValueDefinition>>,
    faults: &mut Vec<Fault>,
) -> Result<(), AllocError>
    ensures { OnOk result (AddsThese faults.old faults.new (values_faults name.now.text (extended_type ty.now) values.now.entries)) }
{
    empty_value_set(judging, name, ty, values, faults)?;
    for (value_name, value) in values {
        check_value(value_name, &value.node, faults)?;
    }
    Ok(())
}

/// Tells the faults of a value of an enum.
fn check_value(
    name: &Name,
    value: &Node<EnumValueDefinition>,
    faults: &mut Vec<Fault>,
) -> Result<(), AllocError>
    ensures { OnOk result (AddsThese faults.old faults.new (value_faults name.now.text (node_tree enum_value_tree value.now))) }
{
    let location = value.content().value.location();
    reserved_name(
        value.is_built_in(),
        name,
        location,
        Named::EnumValue.describe(),
        faults,
    )
}

/// Tells the faults of the fields of an input object.
#[tactic(auto, using(crate::proofs::RoomSteps::room_steps))]
pub(crate) fn check_input_fields(
    judging: &RuleContext<'_>,
    name: &Name,
    ty: &ExtendedType,
    fields: &IndexMap<Name, Component<InputValueDefinition>>,
    faults: &mut Vec<Fault>,
) -> Result<(), AllocError>
    ensures { OnOk result (AddsThese faults.old faults.new (inputs_faults (schema_of judging.now) name.now.text (extended_type ty.now) fields.now.entries)) }
{
    empty_input_value_set(judging, name, ty, fields, faults)?;
    check_each_input_field(judging, fields, faults)
}

/// Tells the faults of each field of an input object.
#[tactic(auto, using(crate::proofs::RoomSteps::room_steps))]
fn check_each_input_field(
    judging: &RuleContext<'_>,
    fields: &IndexMap<Name, Component<InputValueDefinition>>,
    faults: &mut Vec<Fault>,
) -> Result<(), AllocError>
    ensures { OnOk result (AddsThese faults.old faults.new (each_input_faults (schema_of judging.now) fields.now.entries)) }
{
    for (field_name, field) in fields {
        check_input_field(judging, field_name, &field.node, faults)?;
    }
    Ok(())
}

/// Tells the faults of a field of an input object.
fn check_input_field(
    judging: &RuleContext<'_>,
    name: &Name,
    field: &Node<InputValueDefinition>,
    faults: &mut Vec<Fault>,
) -> Result<(), AllocError>
    ensures { OnOk result (AddsThese faults.old faults.new (input_faults (schema_of judging.now) name.now.text (input_tree field.now))) }
{
    check_input_value(judging, name, field, Named::InputField, faults)
}
