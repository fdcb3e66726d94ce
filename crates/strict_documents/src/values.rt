//! Values at any depth.
ghost use Rattle.std.specs.Prelude.{OnOk};
ghost use Rattle.tree_literals.specs.ValueTree.{item_trees, entry_trees, value_tree};
ghost use Rattle.strict_documents.specs.Given.{location_of, schema_of, variables_in, item_departures, entries_departures, entry_departures, value_departures_of, inside_departures_of};
ghost use Rattle.strict_documents.specs.DepartureViews.{Tells};

use crate::departure::Departure;
use crate::location::{Location, Strictness};
use crate::lookups::input_field;
use crate::parts::tell_part;
use graphql_names::{Name, Node};
use std::alloc::AllocError;
use tree_literals::Value;

/// Adds the departures of a value that is given for a location, and of those at any depth in it.
#[cycle(values)]
pub fn tell_value(
    strictness: &Strictness<'_>,
    location: Location<'_>,
    value: &Node<Value>,
    departures: &mut Vec<Departure>,
) -> Result<(), AllocError>
    ensures { OnOk result (Tells departures.old departures.new (value_departures_of strictness.now location.entry value.now)) }
{
    tell_part(strictness.variables, location, value, departures)?;
    tell_inside(strictness, location, value.content(), departures)
}

/// Adds the departures of the values inside a list or an object.
#[cycle(values)]
#[tactic(auto, using(tree_literals::proofs::Trees::value_tree_rules))]
fn tell_inside(
    strictness: &Strictness<'_>,
    location: Location<'_>,
    value: &Value,
    departures: &mut Vec<Departure>,
) -> Result<(), AllocError>
    ensures { OnOk result (Tells departures.old departures.new (inside_departures_of strictness.now location.entry value.now)) }
{
    match value {
        Value::List(items) => tell_items(strictness, location.of_item(), items, departures),
        Value::Object(entries) => {
            let ty = location.inner_name();
            tell_entries(strictness, ty, entries, departures)
        }
        Value::Null
        | Value::Enum(_)
        | Value::Variable(_)
        | Value::String(_)
        | Value::Float(_)
        | Value::Int(_)
        | Value::Boolean(_) => Ok(()),
    }
}

/// Adds the departures of the items of a list, each given for that location.
#[cycle(values)]
fn tell_items(
    strictness: &Strictness<'_>,
    location: Location<'_>,
    items: &[Node<Value>],
    departures: &mut Vec<Departure>,
) -> Result<(), AllocError>
    ensures { OnOk result (Tells departures.old departures.new (item_departures (schema_of strictness.now) (variables_in strictness.now) (location_of location.entry) (item_trees value_tree items.now))) }
{
    for item in items {
        tell_value(strictness, location, item, departures)?;
    }
    Ok(())
}

/// Adds the departures of the entries of an object that is given for the input object `ty`.
#[cycle(values)]
fn tell_entries(
    strictness: &Strictness<'_>,
    ty: &Name,
    entries: &[(Name, Node<Value>)],
    departures: &mut Vec<Departure>,
) -> Result<(), AllocError>
    ensures { OnOk result (Tells departures.old departures.new (entries_departures (schema_of strictness.now) (variables_in strictness.now) ty.now.text (entry_trees value_tree entries.now))) }
{
    for entry in entries {
        tell_entry(strictness, ty, entry, departures)?;
    }
    Ok(())
}

/// Adds the departures of the value of an entry, given for the field of the input object `ty` that has its key.
#[cycle(values)]
fn tell_entry(
    strictness: &Strictness<'_>,
    ty: &Name,
    entry: &(Name, Node<Value>),
    departures: &mut Vec<Departure>,
) -> Result<(), AllocError>
    ensures { OnOk result (Tells departures.old departures.new (entry_departures (schema_of strictness.now) (variables_in strictness.now) ty.now.text entry.now)) }
{
    match input_field(strictness.schema.schema(), ty, &entry.0) {
        None => Ok(()),
        Some(field) => {
            let location = Location::of_field(field.node.content());
            tell_value(strictness, location, &entry.1, departures)
        }
    }
}
