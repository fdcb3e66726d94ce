//! Whole values against types.
ghost use Rattle.std.specs.Prelude.{OnOk};
ghost use Rattle.rule_values.specs.Telling.{Tells, form_faults_of, faults_for, faults_against, faults_inside, faults_of_items, faults_of_entries, faults_of_entry};

use crate::defined::DefinedVariables;
use crate::find::find_input;
use crate::forms::{
    int_coercion_error, is_custom_scalar, undefined_enum_value, unsupported_value_type,
};
use crate::indexed::IndexedSchema;
use crate::objects::{tell_required_fields, undefined_input_value};
use crate::rule_context::RuleContext;
use crate::wanted::Wanted;
use fault_data::Fault;
use graphql_names::{Name, Node};
use indexmap::IndexMap;
use schema_inputs::{FoundType, note_first};
use schema_types::ExtendedType;
use std::alloc::AllocError;
use tree_literals::{Type, Value};

/// Adds the faults of a value against a type.
pub(crate) fn tell_type_faults(
    schema: &IndexedSchema<'_>,
    ty: &Node<Type>,
    value: &Node<Value>,
    variables: &DefinedVariables<'_>,
    faults: &mut Vec<Fault>,
) -> Result<(), AllocError>
    ensures { OnOk result (Tells faults.old faults.new (faults_for schema.now variables.now ty.now value.now)) }
{
    let judging = RuleContext { schema, variables };
    let wanted = Wanted {
        ty: ty.content(),
        location: ty.location(),
    };
    tell_type(&judging, value, &wanted, faults)
}

/// Adds the faults of one value against the expected type, whose inner type is `found`, apart from what is inside a
/// list or an object.
// It is not inlined, so that the faults that it makes take no stack at each level of a value.
#[inline(never)]
#[tactic(auto, using(crate::proofs::RoomSteps::room_steps))]
fn tell_form(
    wanted: &Wanted<'_>,
    found: &FoundType<'_>,
    value: &Node<Value>,
    variables: &DefinedVariables<'_>,
    faults: &mut Vec<Fault>,
) -> Result<(), AllocError>
    ensures { OnOk result (Tells faults.old faults.new (form_faults_of variables.now wanted.now found.now value.now)) }
{
    let ty = found.ty();
    unsupported_value_type(wanted, ty, value, variables, faults)?;
    let name = wanted.ty.inner_named_type();
    let location = value.location();
    let content = value.content();
    int_coercion_error(name, ty, content, location, faults)?;
    undefined_enum_value(name, ty, content, location, faults)?;
    undefined_input_value(name, ty, content, faults)?;
    tell_required_fields(name, found, content, location, faults)
}

/// Adds the faults of a value against the expected type. A type that is not defined takes every value.
#[cycle(types)]
#[tactic(auto, using(crate::proofs::RoomSteps::room_steps))]
fn tell_type(
    judging: &RuleContext<'_>,
    value: &Node<Value>,
    wanted: &Wanted<'_>,
    faults: &mut Vec<Fault>,
) -> Result<(), AllocError>
    ensures { OnOk result (Tells faults.old faults.new (faults_against judging.now wanted.now value.now)) }
{
    match judging.schema.type_named(wanted.ty.inner_named_type()) {
        None => Ok(()),
        Some(found) => {
            tell_form(wanted, &found, value, judging.variables, faults)?;
            tell_inside(judging, value.content(), wanted, found.ty(), faults)
        }
    }
}

/// Adds the faults of what is inside a list or an object.
#[cycle(types)]
#[tactic(auto, using(tree_literals::proofs::Trees::value_tree_rules))]
fn tell_inside(
    judging: &RuleContext<'_>,
    value: &Value,
    wanted: &Wanted<'_>,
    found: &ExtendedType,
    faults: &mut Vec<Fault>,
) -> Result<(), AllocError>
    ensures { OnOk result (Tells faults.old faults.new (faults_inside judging.now wanted.now found.now value.now)) }
{
    match value {
        Value::List(items) => {
            if !(wanted.ty.is_list() || is_custom_scalar(found)) {
                return Ok(());
            }
            let of_items = Wanted {
                ty: wanted.ty.item_type(),
                location: wanted.location,
            };
            tell_items(judging, items, &of_items, faults)
        }
        Value::Object(entries) => {
            if !found.is_input_object() {
                return Ok(());
            }
            tell_entries(judging, entries, found, faults)
        }
        Value::Null
        | Value::Enum(_)
        | Value::Variable(_)
        | Value::String(_)
        | Value::Float(_)
        | Value::Int(_)
        | Value::Boolean(_) => Ok(()),
    }
}

/// Adds the faults of the items of a list against the type of items.
#[cycle(types)]
fn tell_items(
    judging: &RuleContext<'_>,
    items: &[Node<Value>],
    wanted: &Wanted<'_>,
    faults: &mut Vec<Fault>,
) -> Result<(), AllocError>
    ensures { OnOk result (Tells faults.old faults.new (faults_of_items judging.now wanted.now items.now)) }
{
    for item in items {
        tell_type(judging, item, wanted, faults)?;
    }
    Ok(())
}

/// Adds the faults of the entries of an object, each against the type of its field. The first entry of each key counts.
#[cycle(types)]
fn tell_entries(
    judging: &RuleContext<'_>,
    entries: &[(Name, Node<Value>)],
    found: &ExtendedType,
    faults: &mut Vec<Fault>,
) -> Result<(), AllocError>
    ensures { OnOk result (Tells faults.old faults.new (faults_of_entries judging.now found.now entries.now)) }
{
    let mut keys = IndexMap::new(*faults.allocator());
    for entry in entries {
        let first = note_first(&mut keys, &entry.0, entry.0.location())?;
        if first.is_none() {
            tell_entry(judging, entry, found, faults)?;
        }
    }
    Ok(())
}

/// Adds the faults of an entry of an object against the type of the field of its key, if there is one.
#[cycle(types)]
fn tell_entry(
    judging: &RuleContext<'_>,
    entry: &(Name, Node<Value>),
    found: &ExtendedType,
    faults: &mut Vec<Fault>,
) -> Result<(), AllocError>
    ensures { OnOk result (Tells faults.old faults.new (faults_of_entry judging.now found.now entry.now)) }
{
    match find_input(found, &entry.0) {
        None => Ok(()),
        Some(field) => {
            let ty = &field.node.content().ty;
            let wanted = Wanted {
                ty: ty.content(),
                location: ty.location(),
            };
            tell_type(judging, &entry.1, &wanted, faults)
        }
    }
}
