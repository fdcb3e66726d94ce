//! Uses in values.
ghost use Rattle.std.specs.Prelude.{OnOk};
ghost use Rattle.graphql_names.specs.Placed.{name_tree};
ghost use Rattle.tree_literals.specs.ValueTree.{value_tree, item_trees, entry_trees};
ghost use Rattle.graphql_schema.specs.SchemaOf.{schema_tree};
ghost use Rattle.rule_definitions.specs.Judged.{judged};
ghost use Rattle.rule_warnings.specs.Told.{enum_value_uses, value_uses, item_uses, entry_uses};
ghost use Rattle.rule_warnings.specs.Telling.{Tells, entry_uses_of};

use crate::deprecated_use::DeprecatedUse;
use crate::lookups::{enum_value, inner_type, input_field};
use crate::owner::Owner;
use crate::tell::tell_use;
use graphql_names::{Name, Node};
use graphql_schema::Schema;
use std::alloc::AllocError;
use tree_literals::Value;

/// Adds the use of an enum value that is written for the type `ty`.
fn tell_enum_value(
    schema: &Schema,
    ty: &Name,
    name: &Name,
    uses: &mut Vec<DeprecatedUse>,
) -> Result<(), AllocError>
    ensures { OnOk result (Tells uses.old uses.new (enum_value_uses (judged (schema_tree schema.now)) ty.now.text (name_tree name.now))) }
{
    match enum_value(schema, ty, name) {
        None => Ok(()),
        Some(value) => {
            let directives = &value.node.content().directives;
            tell_use(Owner::OfEnumValue(ty), name, directives, uses)
        }
    }
}

/// Adds the uses in a value that is written for a type whose inner name is `ty`.
#[cycle(values)]
#[tactic(auto, using(tree_literals::proofs::Trees::value_tree_rules))]
pub(crate) fn tell_value(
    schema: &Schema,
    ty: &Name,
    value: &Value,
    uses: &mut Vec<DeprecatedUse>,
) -> Result<(), AllocError>
    ensures { OnOk result (Tells uses.old uses.new (value_uses (judged (schema_tree schema.now)) ty.now.text (value_tree value.now))) }
{
    match value {
        Value::Enum(name) => tell_enum_value(schema, ty, name, uses),
        Value::List(items) => tell_items(schema, ty, items, uses),
        Value::Object(entries) => tell_entries(schema, ty, entries, uses),
        Value::Null
        | Value::Variable(_)
        | Value::String(_)
        | Value::Float(_)
        | Value::Int(_)
        | Value::Boolean(_) => Ok(()),
    }
}

/// Adds the uses in the items of a list.
#[cycle(values)]
fn tell_items(
    schema: &Schema,
    ty: &Name,
    items: &[Node<Value>],
    uses: &mut Vec<DeprecatedUse>,
) -> Result<(), AllocError>
    ensures { OnOk result (Tells uses.old uses.new (item_uses (judged (schema_tree schema.now)) ty.now.text (item_trees value_tree items.now))) }
{
    for item in items {
        tell_value(schema, ty, item.content(), uses)?;
    }
    Ok(())
}

/// Adds the uses in the entries of an object for the input object `ty`.
#[cycle(values)]
fn tell_entries(
    schema: &Schema,
    ty: &Name,
    entries: &[(Name, Node<Value>)],
    uses: &mut Vec<DeprecatedUse>,
) -> Result<(), AllocError>
    ensures { OnOk result (Tells uses.old uses.new (entry_uses (judged (schema_tree schema.now)) ty.now.text (entry_trees value_tree entries.now))) }
{
    for entry in entries {
        tell_entry(schema, ty, entry, uses)?;
    }
    Ok(())
}

/// Adds the use of the field of the input object `ty` that has an entry's key, and the uses in its value.
#[cycle(values)]
fn tell_entry(
    schema: &Schema,
    ty: &Name,
    entry: &(Name, Node<Value>),
    uses: &mut Vec<DeprecatedUse>,
) -> Result<(), AllocError>
    ensures { OnOk result (Tells uses.old uses.new (entry_uses_of (judged (schema_tree schema.now)) ty.now.text entry.now)) }
{
    let Some(field) = input_field(schema, ty, &entry.0) else {
        return Ok(());
    };
    let defined = field.node.content();
    tell_use(Owner::OfInputField(ty), &entry.0, &defined.directives, uses)?;
    tell_value(schema, inner_type(defined), entry.1.content(), uses)
}
