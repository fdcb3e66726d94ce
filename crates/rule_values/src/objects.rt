//! Rules on the entries of an object.
ghost use Rattle.std.specs.Prelude.{◌≡◌, IfOk, OnOk};
ghost use Rattle.tree_literals.specs.ValueTree.{value_tree};
ghost use Rattle.graphql_schema.specs.in_schema_types.TypeView.{extended_type};
ghost use Rattle.schema_coordinates.specs.Coordinate.{OfAttribute};
ghost use Rattle.schema_coordinates.specs.CoordinateView.{attribute_coordinate};
ghost use Rattle.rule_values.specs.ValueFaults.{undefined_input_value};
ghost use Rattle.schema_inputs.specs.Firsts.{AreFirsts};
ghost use Rattle.rule_values.specs.Wanting.{is_not_provided, nulls_of};
ghost use Rattle.rule_values.specs.Telling.{Tells, undefined_key_of, told_key, required_fields_of, required_among_entries, required_of_given, required_by_given, AreRequiredIfKnown};

use crate::find::find_input;
use fault_data::{DiagnosticData, Fault, TypeAttributeCoordinate, is_full, tell};
use graphql_names::{Name, Node, SourceSpan};
use indexmap::IndexMap;
use schema_components::Component;
use schema_inputs::{FoundType, note_first};
use schema_types::ExtendedType;
use std::alloc::{AllocError, Global};
use tree_directives::InputValueDefinition;
use tree_literals::Value;

/// UndefinedInputValue: an object value is valid only if the input object type has a field for each key (section 5.6.2).
/// The first key without one is told.
pub(crate) fn undefined_input_value(
    name: &Name,
    found: &ExtendedType,
    value: &Value,
    faults: &mut Vec<Fault>,
) -> Result<(), AllocError>
    ensures { OnOk result (Tells faults.old faults.new (undefined_input_value name.now.text (extended_type found.now) (value_tree value.now))) }
{
    if !found.is_input_object() {
        return Ok(());
    }
    let Some(entries) = value.as_object() else {
        return Ok(());
    };
    undefined_key(name, found, entries, faults)
}

/// The first key without a field.
fn undefined_key(
    name: &Name,
    found: &ExtendedType,
    entries: &[(Name, Node<Value>)],
    faults: &mut Vec<Fault>,
) -> Result<(), AllocError>
    ensures { OnOk result (Tells faults.old faults.new (undefined_key_of name.now found.now entries.now)) }
{
    for entry in entries {
        if find_input(found, &entry.0).is_none() {
            return told_key(name, found, entry, faults);
        }
    }
    Ok(())
}

/// What is told of a key without a field.
fn told_key(
    name: &Name,
    found: &ExtendedType,
    entry: &(Name, Node<Value>),
    faults: &mut Vec<Fault>,
) -> Result<(), AllocError>
    ensures { OnOk result (Tells faults.old faults.new (told_key name.now found.now entry.now)) }
{
    let key = entry.0.clone()?;
    let data = DiagnosticData::UndefinedInputValue {
        value: key,
        definition: name.clone()?,
        definition_location: found.location(),
    };
    tell(
        faults,
        Some(Fault {
            location: entry.1.location(),
            data,
        }),
    )
}

/// For each key whether the value of its first entry is null.
fn nulls_by_key(
    alloc: Global,
    entries: &[(Name, Node<Value>)],
) -> Result<IndexMap<Name, bool>, AllocError>
    ensures { IfOk result (λ nulls. AreFirsts (λ e. e.0) (λ i e. e.1) nulls (nulls_of entries.now)) }
{
    let mut nulls = IndexMap::new(alloc);
    for entry in entries {
        note_first(&mut nulls, &entry.0, entry.1.content().is_null())?;
    }
    Ok(nulls)
}

/// Whether there is no entry of that name, or it is null.
fn is_missing_entry(nulls: &IndexMap<Name, bool>, name: &Name) -> bool
    ensures { result ≡ is_not_provided nulls.now name.now }
{
    match nulls.get(name) {
        None => true,
        Some(is_null) => *is_null,
    }
}

/// The fields of an input object, and the required ones, if they are known.
#[derive(Clone, Copy)]
struct InputFields<'a> {
    all: &'a IndexMap<Name, Component<InputValueDefinition>>,
    required: Option<&'a [(Name, Component<InputValueDefinition>)]>,
}

/// An object that is given for an input object: the name of that type, the place of the object, and for each key
/// whether the value of its first entry is null.
#[derive(Clone, Copy)]
struct GivenObject<'a> {
    name: &'a Name,
    location: Option<SourceSpan>,
    nulls: &'a IndexMap<Name, bool>,
}

/// RequiredField: an object value is valid only if each required field is given, and not as null (section 5.6.4).
/// `field` has the name `field_name` in the type that `given` is given for.
fn required_field(
    given: &GivenObject<'_>,
    field_name: &Name,
    field: &Component<InputValueDefinition>,
    faults: &mut Vec<Fault>,
) -> Result<(), AllocError>
    ensures { OnOk result (Tells faults.old faults.new (required_of_given given.now field_name.now field.now)) }
{
    let definition = field.node.content();
    if !(definition.is_required() && is_missing_entry(given.nulls, field_name)) {
        return Ok(());
    }
    let coordinate = attribute_coordinate(given.name, field_name)?;
    let expected_type = definition.ty.clone()?;
    let data = DiagnosticData::RequiredField {
        name: field_name.clone()?,
        coordinate,
        expected_type,
        definition_location: field.node.location(),
    };
    let location = given.location;
    tell(faults, Some(Fault { location, data }))
}

/// The attribute of that name of the type of that name.
fn attribute_coordinate(ty: &Name, attribute: &Name) -> Result<TypeAttributeCoordinate, AllocError>
    ensures { IfOk result (λ c. attribute_coordinate c ≡ OfAttribute ty.now.text attribute.now.text) }
{
    let ty = ty.clone()?;
    Ok(TypeAttributeCoordinate {
        ty,
        attribute: attribute.clone()?,
    })
}

/// Adds the faults of the required fields that an object does not give.
pub(crate) fn tell_required_fields(
    name: &Name,
    found: &FoundType<'_>,
    value: &Value,
    location: Option<SourceSpan>,
    faults: &mut Vec<Fault>,
) -> Result<(), AllocError>
    ensures { OnOk result (Tells faults.old faults.new (required_fields_of name.now found.now location value.now)) }
{
    let Some(entries) = value.as_object() else {
        return Ok(());
    };
    let ExtendedType::InputObject(object) = found.ty() else {
        return Ok(());
    };
    let fields = InputFields {
        all: &object.content().fields,
        required: found.required(),
    };
    tell_required(name, location, entries, &fields, faults)
}

/// Adds the faults of the required fields among these that the entries do not give.
fn tell_required(
    name: &Name,
    location: Option<SourceSpan>,
    entries: &[(Name, Node<Value>)],
    fields: &InputFields<'_>,
    faults: &mut Vec<Fault>,
) -> Result<(), AllocError>
    requires { AreRequiredIfKnown fields.now }
    ensures { OnOk result (Tells faults.old faults.new (required_among_entries name.now location entries.now fields.now.all.now)) }
{
    if fields.all.len() == 0 {
        return Ok(());
    }
    // A short text can have many objects that lack many fields each.
    if is_full(faults) {
        return Ok(());
    }
    let nulls = nulls_by_key(*faults.allocator(), entries)?;
    let given = GivenObject {
        name,
        location,
        nulls: &nulls,
    };
    tell_required_of(&given, fields, faults)
}

/// Adds the faults of the required ones among the fields that `given` does not have.
fn tell_required_of(
    given: &GivenObject<'_>,
    fields: &InputFields<'_>,
    faults: &mut Vec<Fault>,
) -> Result<(), AllocError>
    requires { AreRequiredIfKnown fields.now }
    ensures { OnOk result (Tells faults.old faults.new (required_by_given given.now fields.now.all.now.entries)) }
{
    match fields.required {
        None => tell_each_required(given, fields.all, faults),
        Some(required) => tell_each_listed(given, required, faults),
    }
}

/// Adds the faults of the required fields among these that `given` does not have.
#[tactic(auto, using(crate::proofs::RoomSteps::room_steps))]
fn tell_each_listed(
    given: &GivenObject<'_>,
    fields: &[(Name, Component<InputValueDefinition>)],
    faults: &mut Vec<Fault>,
) -> Result<(), AllocError>
    ensures { OnOk result (Tells faults.old faults.new (required_by_given given.now fields.now)) }
{
    for field in fields {
        required_field(given, &field.0, &field.1, faults)?;
    }
    Ok(())
}

/// Adds the faults of the required fields among these that `given` does not have.
#[tactic(auto, using(crate::proofs::RoomSteps::room_steps))]
fn tell_each_required(
    given: &GivenObject<'_>,
    fields: &IndexMap<Name, Component<InputValueDefinition>>,
    faults: &mut Vec<Fault>,
) -> Result<(), AllocError>
    ensures { OnOk result (Tells faults.old faults.new (required_by_given given.now fields.now.entries)) }
{
    for (field_name, field) in fields {
        required_field(given, field_name, field, faults)?;
    }
    Ok(())
}
