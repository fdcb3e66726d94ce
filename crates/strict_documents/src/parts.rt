//! A value against the location that it is given for.
ghost use Rattle.std.specs.Prelude.{◌≡◌, [], not, OnOk};
ghost use Rattle.graphql_names.specs.Node.{content, place};
ghost use Rattle.tree_literals.specs.ValueTree.{value_tree};
ghost use Rattle.tree_operations.specs.OperationTree.{variable_definition_tree};
ghost use Rattle.rule_values.specs.Wanting.{variables_of};
ghost use Rattle.strict_documents.specs.ValueLetter.{is_lone_item, is_usage_allowed};
ghost use Rattle.strict_documents.specs.Departing.{departure_if, literal_departures, usage_kind, usage_departures, part_departures};
ghost use Rattle.strict_documents.specs.Given.{location_of, part_of};
ghost use Rattle.strict_documents.specs.DepartureViews.{Tells};

use crate::departure::{Departure, DepartureKind};
use crate::location::Location;
use crate::numbers::is_past_64_bits;
use crate::telling::tell;
use crate::usages::is_usage_allowed;
use graphql_names::{Name, Node};
use rule_values::DefinedVariables;
use std::alloc::AllocError;
use tree_literals::Value;
use tree_operations::VariableDefinition;

/// ItemIsNoList: whether the value is an item that is no list, where a list is expected (section 3.11).
fn is_lone_item(location: Location<'_>, value: &Value) -> bool
    ensures { result ≡ is_lone_item (location_of location.entry) (value_tree value.now) }
{
    if !location.is_item || !location.ty.is_list() {
        return false;
    }
    !(value.is_null() || value.as_variable().is_some() || value.as_list().is_some())
}

/// Adds a departure of that kind at the value, without a name, if there is one.
fn tell_if(
    is: bool,
    value: &Node<Value>,
    kind: DepartureKind,
    departures: &mut Vec<Departure>,
) -> Result<(), AllocError>
    ensures { OnOk result (Tells departures.old departures.new (departure_if is (place value.now) kind [])) }
{
    if !is {
        return Ok(());
    }
    let location = value.location();
    let name = None;
    tell(
        departures,
        Some(Departure {
            location,
            kind,
            name,
        }),
    )
}

/// Adds the departures of a value itself: FloatPast64Bits and ItemIsNoList.
fn tell_literal(
    location: Location<'_>,
    value: &Node<Value>,
    departures: &mut Vec<Departure>,
) -> Result<(), AllocError>
    ensures { OnOk result (Tells departures.old departures.new (literal_departures (part_of location.entry value.now))) }
{
    let past = is_past_64_bits(location, value.content());
    tell_if(past, value, DepartureKind::FloatPast64Bits, departures)?;
    let lone = is_lone_item(location, value.content());
    tell_if(lone, value, DepartureKind::ItemIsNoList, departures)
}

/// The kind of a usage at that location that is not allowed: NullDefault of a whole argument, else VariableInside.
fn usage_kind(location: Location<'_>) -> DepartureKind
    ensures { result ≡ usage_kind (location_of location.entry) }
{
    if location.is_argument {
        DepartureKind::NullDefault
    } else {
        DepartureKind::VariableInside
    }
}

/// Adds the departure of a variable of that name and definition, if this usage of it is not allowed (section 5.8.5).
fn tell_disallowed(
    variable: &VariableDefinition,
    location: Location<'_>,
    value: &Node<Value>,
    name: &Name,
    departures: &mut Vec<Departure>,
) -> Result<(), AllocError>
    ensures { OnOk result (Tells departures.old departures.new (departure_if (not (is_usage_allowed (variable_definition_tree variable.now) (location_of location.entry))) (place value.now) (usage_kind (location_of location.entry)) name.now.text)) }
{
    if is_usage_allowed(variable, location) {
        return Ok(());
    }
    let kind = usage_kind(location);
    let location = value.location();
    let name = Some(name.clone()?);
    tell(
        departures,
        Some(Departure {
            location,
            kind,
            name,
        }),
    )
}

/// Adds the departure of a value that is a variable: NullDefault or VariableInside.
fn tell_usage(
    variables: &DefinedVariables<'_>,
    location: Location<'_>,
    value: &Node<Value>,
    departures: &mut Vec<Departure>,
) -> Result<(), AllocError>
    ensures { OnOk result (Tells departures.old departures.new (usage_departures (variables_of variables.now) (part_of location.entry value.now))) }
{
    let Some(name) = value.content().as_variable() else {
        return Ok(());
    };
    match variables.get(name) {
        None => Ok(()),
        Some(variable) => tell_disallowed(variable.content(), location, value, name, departures),
    }
}

/// Adds the departures of a value, apart from those inside it.
pub(crate) fn tell_part(
    variables: &DefinedVariables<'_>,
    location: Location<'_>,
    value: &Node<Value>,
    departures: &mut Vec<Departure>,
) -> Result<(), AllocError>
    ensures { OnOk result (Tells departures.old departures.new (part_departures (variables_of variables.now) (part_of location.entry value.now))) }
{
    tell_literal(location, value, departures)?;
    tell_usage(variables, location, value, departures)
}
