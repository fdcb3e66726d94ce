//! Whether the grammar can write a type or a value.
ghost use Rattle.std.specs.Prelude.{◌≡◌, ◌&&◌, Bool, true, false, not};
ghost use Rattle.std.specs.Option.{option_map};
ghost use Rattle.graphql_names.specs.Placed.{node_tree, Place};
ghost use Rattle.tree_literals.specs.TypeTree.{type_tree};
ghost use Rattle.tree_literals.specs.ValueTree.{value_tree, item_trees, entry_trees};
ghost use Rattle.tree_literals.specs.ValueWritable.{can_be_enum, type_writable, value_writable, items_writable, entries_writable, default_writable};

use crate::ty::Type;
use crate::value::Value;
use graphql_names::{Name, Node};

/// No enum value is `true`, `false` or `null` (section 2.9.6).
pub fn can_be_enum(name: &Name) -> bool
    ensures { result ≡ can_be_enum name.now.text }
{
    let text = name.as_str();
    !(text == "true") && !(text == "false") && !(text == "null")
}

/// Whether the grammar can write a value. `is_const` says that no variable is allowed. Public for the crates above.
#[cycle(writable)]
#[tactic(auto, using(crate::proofs::Trees::value_tree_rules))]
pub fn value_is_writable(is_const: bool, value: &Value) -> bool
    ensures { result ≡ value_writable is_const (value_tree value.now) }
{
    match value {
        Value::Null => true,
        Value::Enum(name) => can_be_enum(name),
        Value::Variable(_) => !is_const,
        Value::String(_) => true,
        Value::Float(_) => true,
        Value::Int(_) => true,
        Value::Boolean(_) => true,
        Value::List(items) => items_are_writable(is_const, items),
        Value::Object(fields) => entries_are_writable(is_const, fields),
    }
}

#[cycle(writable)]
fn items_are_writable(is_const: bool, items: &[Node<Value>]) -> bool
    ensures { result ≡ items_writable is_const (item_trees value_tree items.now) }
{
    for item in items {
        if !value_is_writable(is_const, item.content()) {
            return false;
        }
    }
    true
}

#[cycle(writable)]
fn entries_are_writable(is_const: bool, fields: &[(Name, Node<Value>)]) -> bool
    ensures { result ≡ entries_writable is_const (entry_trees value_tree fields.now) }
{
    for field in fields {
        if !value_is_writable(is_const, field.1.content()) {
            return false;
        }
    }
    true
}

/// Whether the grammar can write a default value, if there is one. Public for the crates above.
pub fn default_is_writable(default: &Option<Node<Value>>) -> bool
    ensures { result ≡ default_writable (option_map (node_tree value_tree) default.now) }
{
    match default {
        None => true,
        Some(value) => value_is_writable(true, value.content()),
    }
}

impl Type {
    /// Whether the grammar can write it: it can write each.
    pub fn is_writable(&self) -> bool
        ensures value { result ≡ type_writable (type_tree self.now) }
        ensures always { result ≡ true }
    {
        true
    }
}

impl Value {
    /// Whether the grammar can write it.
    pub fn is_writable(&self) -> bool
        ensures { result ≡ value_writable false (value_tree self.now) }
    {
        value_is_writable(false, self)
    }
}
