//! The texts of definitions of input values and directives by themselves.
ghost use Rattle.std.specs.Prelude.{Some};
ghost use Rattle.std.specs.Option.{option_copied};
ghost use Rattle.tree_literals.specs.Levels.{level_depth};
ghost use Rattle.tree_literals.specs.LineLayout.{default_prefix, standing};
ghost use Rattle.tree_directives.specs.DirectiveTree.{input_value_tree, directive_definition_tree};
ghost use Rattle.tree_directives.specs.InputLayout.{input_value_text, directive_definition_text};

use crate::directive::DirectiveDefinition;
use crate::input_value::InputValueDefinition;
use crate::print_input::{put_directive_definition, put_input_value};
use std::fmt;
use tree_literals::{Level, Sink, Tree, put_start};

impl Tree for InputValueDefinition {
    ghost text = { λ t prefix level. standing prefix level (input_value_text prefix (input_value_tree t) level) };

    fn put<S: Sink>(&self, sink: &mut S, prefix: Option<&str>, level: &Level) {
        put_start(sink, prefix, level);
        put_input_value(sink, prefix, level, self);
    }
}

impl fmt::Display for InputValueDefinition {
    ghost output = { λ t. Some (standing default_prefix 0 (input_value_text default_prefix (input_value_tree t) 0)) };

    fn fmt<W: fmt::Write>(&self, f: &mut fmt::Formatter<W>) -> fmt::Result {
        self.serialize().fmt(f)
    }
}

impl Tree for DirectiveDefinition {
    ghost text = { λ t prefix level. standing prefix level (directive_definition_text prefix (directive_definition_tree t) level) };

    fn put<S: Sink>(&self, sink: &mut S, prefix: Option<&str>, level: &Level) {
        put_start(sink, prefix, level);
        put_directive_definition(sink, prefix, level, self);
    }
}

impl fmt::Display for DirectiveDefinition {
    ghost output = { λ t. Some (standing default_prefix 0 (directive_definition_text default_prefix (directive_definition_tree t) 0)) };

    fn fmt<W: fmt::Write>(&self, f: &mut fmt::Formatter<W>) -> fmt::Result {
        self.serialize().fmt(f)
    }
}
