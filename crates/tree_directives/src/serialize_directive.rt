//! The texts of arguments and directives by themselves.
ghost use Rattle.std.specs.Prelude.{Some};
ghost use Rattle.tree_literals.specs.LineLayout.{default_prefix, standing};
ghost use Rattle.tree_directives.specs.DirectiveTree.{argument_tree, directive_tree, directives_tree};
ghost use Rattle.tree_directives.specs.DirectiveLayout.{argument_text, directive_text, directives_alone};

use crate::directive::{Argument, Directive, DirectiveList};
use crate::print_directive::{put_argument, put_directive, put_directive_list};
use std::fmt;
use tree_literals::{Level, Sink, Tree, put_start};

impl Tree for Argument {
    ghost text = { λ t prefix level. standing prefix level (argument_text (argument_tree t)) };

    fn put<S: Sink>(&self, sink: &mut S, prefix: Option<&str>, level: &Level) {
        put_start(sink, prefix, level);
        put_argument(sink, self);
    }
}

impl fmt::Display for Argument {
    ghost output = { λ t. Some (standing default_prefix 0 (argument_text (argument_tree t))) };

    fn fmt<W: fmt::Write>(&self, f: &mut fmt::Formatter<W>) -> fmt::Result {
        self.serialize().fmt(f)
    }
}

impl Tree for Directive {
    ghost text = { λ t prefix level. standing prefix level (directive_text (directive_tree t)) };

    fn put<S: Sink>(&self, sink: &mut S, prefix: Option<&str>, level: &Level) {
        put_start(sink, prefix, level);
        put_directive(sink, self);
    }
}

impl fmt::Display for Directive {
    ghost output = { λ t. Some (standing default_prefix 0 (directive_text (directive_tree t))) };

    fn fmt<W: fmt::Write>(&self, f: &mut fmt::Formatter<W>) -> fmt::Result {
        self.serialize().fmt(f)
    }
}

impl Tree for DirectiveList {
    ghost text = { λ t prefix level. directives_alone prefix level (directives_tree t) };

    fn put<S: Sink>(&self, sink: &mut S, prefix: Option<&str>, level: &Level) {
        put_directive_list(sink, prefix, level, &self.0);
    }
}

impl fmt::Display for DirectiveList {
    ghost output = { λ t. Some (directives_alone default_prefix 0 (directives_tree t)) };

    fn fmt<W: fmt::Write>(&self, f: &mut fmt::Formatter<W>) -> fmt::Result {
        self.serialize().fmt(f)
    }
}
