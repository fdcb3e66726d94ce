//! Types and values.
ghost use Rattle.std.specs.Prelude.{◌≡◌, ◌∷◌, ℕ, List, [], codes, None};
ghost use Rattle.std.specs.Option.{option_map};
ghost use Rattle.graphql_names.specs.Placed.{node_tree, Place};
ghost use Rattle.tree_literals.specs.Joined.{joined, after, separated};
ghost use Rattle.tree_literals.specs.TypeTree.{type_tree};
ghost use Rattle.tree_literals.specs.ValueTree.{value_tree, item_trees, entry_trees};
ghost use Rattle.tree_literals.specs.ValueLayout.{type_text, value_text, item_texts, entry_texts, named_value_text, boolean_text, default_text};

use crate::ty::Type;
use crate::value::Value;
use crate::{Sink, put_quoted};
use graphql_names::{Name, Node};

/// A reference to a type. Public for the printers of the crates above.
#[tactic(auto, using(crate::proofs::Trees::type_tree_rules))]
pub fn put_type<S: Sink>(sink: &mut S, ty: &Type)
    ensures { S.puts sink.old (type_text (type_tree ty.now)) sink.new }
{
    match ty {
        Type::Named(name) => sink.put(name.as_str()),
        Type::NonNullNamed(name) => {
            sink.put(name.as_str());
            sink.put("!");
        }
        Type::List(item) => {
            sink.put("[");
            put_type(sink, item);
            sink.put("]");
        }
        Type::NonNullList(item) => {
            sink.put("[");
            put_type(sink, item);
            sink.put("]!");
        }
    }
}

fn put_boolean<S: Sink>(sink: &mut S, truth: bool)
    ensures { S.puts sink.old (boolean_text truth) sink.new }
{
    match truth {
        true => sink.put("true"),
        false => sink.put("false"),
    }
}

fn put_variable<S: Sink>(sink: &mut S, name: &Name)
    ensures { S.puts sink.old (joined (codes "$" ∷ name.now.text ∷ [])) sink.new }
{
    sink.put("$");
    sink.put(name.as_str());
}

#[cycle(values)]
#[tactic(auto, using(crate::proofs::Trees::value_tree_rules))]
pub fn put_value<S: Sink>(sink: &mut S, value: &Value)
    ensures { S.puts sink.old (value_text (value_tree value.now)) sink.new }
{
    match value {
        Value::Null => sink.put("null"),
        Value::Enum(name) => sink.put(name.as_str()),
        Value::Variable(name) => put_variable(sink, name),
        Value::String(text) => put_quoted(sink, text.as_str()),
        Value::Float(number) => sink.put(number.as_str()),
        Value::Int(number) => sink.put(number.as_str()),
        Value::Boolean(truth) => put_boolean(sink, *truth),
        Value::List(items) => {
            sink.put("[");
            put_items(sink, items);
            sink.put("]");
        }
        Value::Object(fields) => {
            sink.put("{");
            put_entries(sink, fields);
            sink.put("}");
        }
    }
}

#[cycle(values)]
fn put_items<S: Sink>(sink: &mut S, items: &[Node<Value>])
    ensures { S.puts sink.old (separated (codes ", ") (item_texts (item_trees value_tree items.now))) sink.new }
{
    match items.split_first() {
        None => {}
        Some((first, further)) => {
            put_value(sink, first.content());
            for item in further {
                put_next_item(sink, item.content());
            }
        }
    }
}

#[cycle(values)]
fn put_next_item<S: Sink>(sink: &mut S, item: &Value)
    ensures { S.puts sink.old (after (codes ", ") (value_text (value_tree item.now))) sink.new }
{
    sink.put(", ");
    put_value(sink, item);
}

#[cycle(values)]
fn put_entries<S: Sink>(sink: &mut S, fields: &[(Name, Node<Value>)])
    ensures { S.puts sink.old (separated (codes ", ") (entry_texts (entry_trees value_tree fields.now))) sink.new }
{
    match fields.split_first() {
        None => {}
        Some((first, further)) => {
            put_named_value(sink, &first.0, first.1.content());
            for field in further {
                put_next_entry(sink, &field.0, field.1.content());
            }
        }
    }
}

#[cycle(values)]
fn put_next_entry<S: Sink>(sink: &mut S, name: &Name, value: &Value)
    ensures { S.puts sink.old (after (codes ", ") (named_value_text name.now.text (value_text (value_tree value.now)))) sink.new }
{
    sink.put(", ");
    put_named_value(sink, name, value);
}

/// `name: value`. Public for the printers of the crates above.
#[cycle(values)]
pub fn put_named_value<S: Sink>(sink: &mut S, name: &Name, value: &Value)
    ensures { S.puts sink.old (named_value_text name.now.text (value_text (value_tree value.now))) sink.new }
{
    sink.put(name.as_str());
    sink.put(": ");
    put_value(sink, value);
}

/// A default value, if there is one. Public for the printers of the crates above.
pub fn put_default<S: Sink>(sink: &mut S, default: &Option<Node<Value>>)
    ensures { S.puts sink.old (default_text (option_map (node_tree value_tree) default.now)) sink.new }
{
    match default {
        None => {}
        Some(value) => {
            sink.put(" = ");
            put_value(sink, value.content());
        }
    }
}
