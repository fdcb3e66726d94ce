//! The texts of types and values by themselves.
ghost use Rattle.std.specs.Prelude.{Some};
ghost use Rattle.tree_literals.specs.LineLayout.{default_prefix, standing};
ghost use Rattle.tree_literals.specs.TypeTree.{type_tree};
ghost use Rattle.tree_literals.specs.ValueTree.{value_tree};
ghost use Rattle.tree_literals.specs.ValueLayout.{type_text, value_text};

use crate::print_value::{put_type, put_value};
use crate::ty::Type;
use crate::value::Value;
use crate::{Level, Sink, Tree, put_start};
use std::fmt;

impl Tree for Type {
    ghost text = { λ t prefix level. standing prefix level (type_text (type_tree t)) };

    fn put<S: Sink>(&self, sink: &mut S, prefix: Option<&str>, level: &Level) {
        put_start(sink, prefix, level);
        put_type(sink, self);
    }
}

impl fmt::Display for Type {
    ghost output = { λ t. Some (standing default_prefix 0 (type_text (type_tree t))) };

    fn fmt<W: fmt::Write>(&self, f: &mut fmt::Formatter<W>) -> fmt::Result {
        self.serialize().fmt(f)
    }
}

impl Tree for Value {
    ghost text = { λ t prefix level. standing prefix level (value_text (value_tree t)) };

    fn put<S: Sink>(&self, sink: &mut S, prefix: Option<&str>, level: &Level) {
        put_start(sink, prefix, level);
        put_value(sink, self);
    }
}

impl fmt::Display for Value {
    ghost output = { λ t. Some (standing default_prefix 0 (value_text (value_tree t))) };

    fn fmt<W: fmt::Write>(&self, f: &mut fmt::Formatter<W>) -> fmt::Result {
        self.serialize().fmt(f)
    }
}
