//! Literal values and variables.
ghost use Rattle.std.specs.Prelude.{◌≡◌, None, MatchOption, FitsSigned};
ghost use Rattle.std.specs.Int.{w32};
ghost use Rattle.std.specs.Option.{option_map, option_copied, SomeIff};
ghost use Rattle.graphql_names.specs.Placed.{name_tree};
ghost use Rattle.tree_literals.specs.ValueTree.{NullTree, BooleanTree, value_tree, item_trees, entry_trees};
ghost use Rattle.tree_literals.specs.ValueQueries.{is_null_value, enum_name, variable_name, string_text, integer_text, boolean_value, list_items, object_entries, value_description};
ghost use Rattle.tree_literals.specs.NumberSyntax.{integer_value};

use crate::number::{FloatValue, IntValue};
use graphql_names::{Name, Node};
use std::alloc::AllocError;

/// A literal value, or a variable (section 2.9).
#[derive(PartialEq, Eq, Hash)]
pub enum Value {
    Null,
    Enum(Name),
    Variable(Name),
    String(String),
    Float(FloatValue),
    Int(IntValue),
    Boolean(bool),
    List(Vec<Node<Value>>),
    // A list rather than a map: a key may be written twice, which a validation rule reports.
    Object(Vec<(Name, Node<Value>)>),
}

impl Drop for Value {
    fn drop(self) {
        match self {
            Value::Null
            | Value::Enum(_)
            | Value::Variable(_)
            | Value::String(_)
            | Value::Float(_)
            | Value::Int(_)
            | Value::Boolean(_)
            | Value::List(_)
            | Value::Object(_) => {}
        }
    }
}

#[tactic(auto, using(crate::proofs::Trees::value_tree_rules))]
impl Value {
    /// Whether the value is the literal `null`.
    pub fn is_null(&self) -> bool
        ensures { result ≡ is_null_value (value_tree self.now) }
    {
        match self {
            Value::Null => true,
            Value::Enum(_)
            | Value::Variable(_)
            | Value::String(_)
            | Value::Float(_)
            | Value::Int(_)
            | Value::Boolean(_)
            | Value::List(_)
            | Value::Object(_) => false,
        }
    }

    /// The name of an enum value, else None.
    pub fn as_enum(&self) -> Option<&Name>
        ensures { option_map name_tree (option_copied result) ≡ enum_name (value_tree self.now) }
    {
        match self {
            Value::Enum(name) => Some(name),
            Value::Null
            | Value::Variable(_)
            | Value::String(_)
            | Value::Float(_)
            | Value::Int(_)
            | Value::Boolean(_)
            | Value::List(_)
            | Value::Object(_) => None,
        }
    }

    /// The name of a variable, else None.
    pub fn as_variable(&self) -> Option<&Name>
        ensures { option_map name_tree (option_copied result) ≡ variable_name (value_tree self.now) }
    {
        match self {
            Value::Variable(name) => Some(name),
            Value::Null
            | Value::Enum(_)
            | Value::String(_)
            | Value::Float(_)
            | Value::Int(_)
            | Value::Boolean(_)
            | Value::List(_)
            | Value::Object(_) => None,
        }
    }

    /// The text of a string, else None.
    pub fn as_str(&self) -> Option<&str>
        ensures { option_copied result ≡ string_text (value_tree self.now) }
    {
        match self {
            Value::String(text) => Some(text.as_str()),
            Value::Null
            | Value::Enum(_)
            | Value::Variable(_)
            | Value::Float(_)
            | Value::Int(_)
            | Value::Boolean(_)
            | Value::List(_)
            | Value::Object(_) => None,
        }
    }

    /// The number of an integer, where it fits 32 bits, else None.
    pub fn to_i32(&self) -> Option<i32>
        ensures { MatchOption (integer_text (value_tree self.now)) (result ≡ None) (λ text. SomeIff result (FitsSigned w32 (integer_value text)) (integer_value text)) }
    {
        match self {
            Value::Int(number) => number.try_to_i32(),
            Value::Null
            | Value::Enum(_)
            | Value::Variable(_)
            | Value::String(_)
            | Value::Float(_)
            | Value::Boolean(_)
            | Value::List(_)
            | Value::Object(_) => None,
        }
    }

    /// The truth value of a boolean, else None.
    pub fn to_bool(&self) -> Option<bool>
        ensures { result ≡ boolean_value (value_tree self.now) }
    {
        match self {
            Value::Boolean(truth) => Some(*truth),
            Value::Null
            | Value::Enum(_)
            | Value::Variable(_)
            | Value::String(_)
            | Value::Float(_)
            | Value::Int(_)
            | Value::List(_)
            | Value::Object(_) => None,
        }
    }

    /// The items of a list, else None.
    pub fn as_list(&self) -> Option<&[Node<Value>]>
        ensures { option_map (item_trees value_tree) (option_copied result) ≡ list_items (value_tree self.now) }
    {
        match self {
            Value::List(items) => Some(items.as_slice()),
            Value::Null
            | Value::Enum(_)
            | Value::Variable(_)
            | Value::String(_)
            | Value::Float(_)
            | Value::Int(_)
            | Value::Boolean(_)
            | Value::Object(_) => None,
        }
    }

    /// The fields of an input object, else None.
    pub fn as_object(&self) -> Option<&[(Name, Node<Value>)]>
        ensures { option_map (entry_trees value_tree) (option_copied result) ≡ object_entries (value_tree self.now) }
    {
        match self {
            Value::Object(fields) => Some(fields.as_slice()),
            Value::Null
            | Value::Enum(_)
            | Value::Variable(_)
            | Value::String(_)
            | Value::Float(_)
            | Value::Int(_)
            | Value::Boolean(_)
            | Value::List(_) => None,
        }
    }

    /// The kind of the value in words, with its article.
    pub fn describe(&self) -> &'static str
        ensures { result.now ≡ value_description (value_tree self.now) }
    {
        match self {
            Value::Null => "null",
            Value::Enum(_) => "an enum",
            Value::Variable(_) => "a variable",
            Value::String(_) => "a string",
            Value::Float(_) => "a float",
            Value::Int(_) => "an integer",
            Value::Boolean(_) => "a boolean",
            Value::List(_) => "a list",
            Value::Object(_) => "an input object",
        }
    }
}

/// The literal `null`.
impl From<()> for Value {
    ghost from_gives = { λ _ v. value_tree v ≡ NullTree };

    fn from(_: ()) -> Value {
        Value::Null
    }
}

/// The literal `true` or `false`.
impl From<bool> for Value {
    ghost from_gives = { λ b v. value_tree v ≡ BooleanTree b };

    fn from(truth: bool) -> Value {
        Value::Boolean(truth)
    }
}

impl Clone for Value {
    ghost is_clone = { λ v copy. value_tree copy ≡ value_tree v };

    /// The value again; its items and fields are shared.
    #[tactic(auto, using(crate::proofs::Trees::value_tree_rules))]
    fn clone(&self) -> Result<Value, AllocError> {
        match self {
            Value::Null => Ok(Value::Null),
            Value::Enum(name) => Ok(Value::Enum(name.clone()?)),
            Value::Variable(name) => Ok(Value::Variable(name.clone()?)),
            Value::String(text) => Ok(Value::String(text.clone()?)),
            Value::Float(number) => Ok(Value::Float(number.clone()?)),
            Value::Int(number) => Ok(Value::Int(number.clone()?)),
            Value::Boolean(truth) => Ok(Value::Boolean(*truth)),
            Value::List(items) => Ok(Value::List(items.clone()?)),
            Value::Object(fields) => Ok(Value::Object(fields.clone()?)),
        }
    }
}
