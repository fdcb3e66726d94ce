//! Keys of objects.
ghost use Rattle.std.specs.Prelude.{◌≡◌, [], OnOk};
ghost use Rattle.graphql_names.specs.Node.{content};
ghost use Rattle.graphql_names.specs.Placed.{name_tree};
ghost use Rattle.tree_literals.specs.ValueTree.{value_tree, item_trees, entry_trees};
ghost use Rattle.fault_data.specs.FaultView.{faults_of};
ghost use Rattle.fault_data.specs.Room.{◌⊕◌};
ghost use Rattle.rule_values.specs.KeyFaults.{key_again, repeated_keys, key_faults, key_faults_items, key_faults_object, key_faults_entries};

use fault_data::{DiagnosticData, Fault, tell};
use graphql_names::{Name, Node, SourceSpan};
use indexmap::IndexMap;
use schema_inputs::note_first;
use std::alloc::AllocError;
use tree_literals::Value;

/// UniqueInputValue: an object value is valid only if its keys differ (section 5.6.3). `first` is the place of the first of
/// its name, if one is before it.
fn unique_input_value(
    first: Option<Option<SourceSpan>>,
    key: &Name,
    faults: &mut Vec<Fault>,
) -> Result<(), AllocError>
    ensures { OnOk result (faults_of faults.new ≡ faults_of faults.old ⊕ key_again first (name_tree key.now)) }
{
    let Some(original_definition) = first else {
        return Ok(());
    };
    let location = key.location();
    let data = DiagnosticData::UniqueInputValue {
        name: key.clone()?,
        original_definition,
        redefined_definition: location,
    };
    tell(faults, Some(Fault { location, data }))
}

/// Adds a fault for each key that an earlier entry has.
// It is not inlined, so that its locals take no stack at each level of a value.
#[inline(never)]
fn tell_repeated_keys(
    entries: &[(Name, Node<Value>)],
    faults: &mut Vec<Fault>,
) -> Result<(), AllocError>
    ensures { OnOk result (faults_of faults.new ≡ faults_of faults.old ⊕ repeated_keys [] (entry_trees value_tree entries.now)) }
{
    let mut places = IndexMap::new(*faults.allocator());
    for entry in entries {
        let first = note_first(&mut places, &entry.0, entry.0.location())?;
        unique_input_value(first, &entry.0, faults)?;
    }
    Ok(())
}

/// Adds the faults of the keys in a value.
pub(crate) fn tell_key_faults(
    value: &Node<Value>,
    faults: &mut Vec<Fault>,
) -> Result<(), AllocError>
    ensures { OnOk result (faults_of faults.new ≡ faults_of faults.old ⊕ key_faults (value_tree (content value.now))) }
{
    tell_keys(value.content(), faults)
}

/// Adds the faults of the keys in a value, at any depth.
#[cycle(keys)]
#[tactic(auto, using(tree_literals::proofs::Trees::value_tree_rules))]
fn tell_keys(value: &Value, faults: &mut Vec<Fault>) -> Result<(), AllocError>
    ensures { OnOk result (faults_of faults.new ≡ faults_of faults.old ⊕ key_faults (value_tree value.now)) }
{
    match value {
        Value::List(items) => tell_keys_of_items(items, faults),
        Value::Object(entries) => tell_keys_of_object(entries, faults),
        Value::Null
        | Value::Enum(_)
        | Value::Variable(_)
        | Value::String(_)
        | Value::Float(_)
        | Value::Int(_)
        | Value::Boolean(_) => Ok(()),
    }
}

#[cycle(keys)]
#[tactic(auto, using(crate::proofs::RoomSteps::room_steps))]
fn tell_keys_of_items(items: &[Node<Value>], faults: &mut Vec<Fault>) -> Result<(), AllocError>
    ensures { OnOk result (faults_of faults.new ≡ faults_of faults.old ⊕ key_faults_items (item_trees value_tree items.now)) }
{
    for item in items {
        tell_keys(item.content(), faults)?;
    }
    Ok(())
}

#[cycle(keys)]
#[tactic(auto, using(crate::proofs::RoomSteps::room_steps))]
fn tell_keys_of_object(
    entries: &[(Name, Node<Value>)],
    faults: &mut Vec<Fault>,
) -> Result<(), AllocError>
    ensures { OnOk result (faults_of faults.new ≡ faults_of faults.old ⊕ key_faults_object (entry_trees value_tree entries.now)) }
{
    tell_repeated_keys(entries, faults)?;
    tell_keys_of_entries(entries, faults)
}

#[cycle(keys)]
#[tactic(auto, using(crate::proofs::RoomSteps::room_steps))]
fn tell_keys_of_entries(
    entries: &[(Name, Node<Value>)],
    faults: &mut Vec<Fault>,
) -> Result<(), AllocError>
    ensures { OnOk result (faults_of faults.new ≡ faults_of faults.old ⊕ key_faults_entries (entry_trees value_tree entries.now)) }
{
    for entry in entries {
        tell_keys(entry.1.content(), faults)?;
    }
    Ok(())
}
