//! The texts of selections, operations and fragments by themselves.
ghost use Rattle.std.specs.Prelude.{Some, None};
ghost use Rattle.std.specs.Option.{option_copied};
ghost use Rattle.tree_directives.specs.in_literals.Levels.{level_depth};
ghost use Rattle.tree_directives.specs.in_literals.LineLayout.{default_prefix, standing};
ghost use Rattle.tree_operations.specs.SelectionTree.{selection_tree};
ghost use Rattle.tree_operations.specs.SelectionParts.{field_tree, spread_tree, inline_tree};
ghost use Rattle.tree_operations.specs.OperationTree.{variable_definition_tree, operation_tree, fragment_tree};
ghost use Rattle.tree_operations.specs.OperationLayout.{selection_text, variable_text, operation_text, begins_output, fragment_text};

use crate::operation::{FragmentDefinition, OperationDefinition, VariableDefinition};
use crate::print_operation::{
    begins_output, put_field, put_fragment, put_inline, put_operation, put_selection, put_spread,
    put_variable_definition,
};
use crate::selection::{Field, FragmentSpread, InlineFragment, Selection};
use std::fmt;
use tree_directives::{Level, Sink, Tree, put_start};

impl Tree for Selection {
    ghost text = { λ t prefix level. standing prefix level (selection_text prefix (selection_tree t) level) };

    fn put<S: Sink>(&self, sink: &mut S, prefix: Option<&str>, level: &Level) {
        put_start(sink, prefix, level);
        put_selection(sink, prefix, level, self);
    }
}

impl fmt::Display for Selection {
    ghost output = { λ t. Some (standing default_prefix 0 (selection_text default_prefix (selection_tree t) 0)) };

    fn fmt<W: fmt::Write>(&self, f: &mut fmt::Formatter<W>) -> fmt::Result {
        self.serialize().fmt(f)
    }
}

impl Tree for Field {
    ghost text = { λ t prefix level. standing prefix level (selection_text prefix (field_tree None t) level) };

    fn put<S: Sink>(&self, sink: &mut S, prefix: Option<&str>, level: &Level) {
        put_start(sink, prefix, level);
        put_field(sink, prefix, level, self);
    }
}

impl fmt::Display for Field {
    ghost output = { λ t. Some (standing default_prefix 0 (selection_text default_prefix (field_tree None t) 0)) };

    fn fmt<W: fmt::Write>(&self, f: &mut fmt::Formatter<W>) -> fmt::Result {
        self.serialize().fmt(f)
    }
}

impl Tree for FragmentSpread {
    ghost text = { λ t prefix level. standing prefix level (selection_text prefix (spread_tree None t) level) };

    fn put<S: Sink>(&self, sink: &mut S, prefix: Option<&str>, level: &Level) {
        put_start(sink, prefix, level);
        put_spread(sink, prefix, level, self);
    }
}

impl fmt::Display for FragmentSpread {
    ghost output = { λ t. Some (standing default_prefix 0 (selection_text default_prefix (spread_tree None t) 0)) };

    fn fmt<W: fmt::Write>(&self, f: &mut fmt::Formatter<W>) -> fmt::Result {
        self.serialize().fmt(f)
    }
}

impl Tree for InlineFragment {
    ghost text = { λ t prefix level. standing prefix level (selection_text prefix (inline_tree None t) level) };

    fn put<S: Sink>(&self, sink: &mut S, prefix: Option<&str>, level: &Level) {
        put_start(sink, prefix, level);
        put_inline(sink, prefix, level, self);
    }
}

impl fmt::Display for InlineFragment {
    ghost output = { λ t. Some (standing default_prefix 0 (selection_text default_prefix (inline_tree None t) 0)) };

    fn fmt<W: fmt::Write>(&self, f: &mut fmt::Formatter<W>) -> fmt::Result {
        self.serialize().fmt(f)
    }
}

impl Tree for VariableDefinition {
    ghost text = { λ t prefix level. standing prefix level (variable_text (variable_definition_tree t)) };

    fn put<S: Sink>(&self, sink: &mut S, prefix: Option<&str>, level: &Level) {
        put_start(sink, prefix, level);
        put_variable_definition(sink, self);
    }
}

impl fmt::Display for VariableDefinition {
    ghost output = { λ t. Some (standing default_prefix 0 (variable_text (variable_definition_tree t))) };

    fn fmt<W: fmt::Write>(&self, f: &mut fmt::Formatter<W>) -> fmt::Result {
        self.serialize().fmt(f)
    }
}

impl Tree for OperationDefinition {
    ghost text = { λ t prefix level. standing prefix level (operation_text (begins_output prefix level) prefix (operation_tree t) level) };

    fn put<S: Sink>(&self, sink: &mut S, prefix: Option<&str>, level: &Level) {
        put_start(sink, prefix, level);
        let at_start = begins_output(prefix, level);
        put_operation(sink, prefix, level, at_start, self);
    }
}

impl fmt::Display for OperationDefinition {
    ghost output = { λ t. Some (standing default_prefix 0 (operation_text (begins_output default_prefix 0) default_prefix (operation_tree t) 0)) };

    fn fmt<W: fmt::Write>(&self, f: &mut fmt::Formatter<W>) -> fmt::Result {
        self.serialize().fmt(f)
    }
}

impl Tree for FragmentDefinition {
    ghost text = { λ t prefix level. standing prefix level (fragment_text prefix (fragment_tree t) level) };

    fn put<S: Sink>(&self, sink: &mut S, prefix: Option<&str>, level: &Level) {
        put_start(sink, prefix, level);
        put_fragment(sink, prefix, level, self);
    }
}

impl fmt::Display for FragmentDefinition {
    ghost output = { λ t. Some (standing default_prefix 0 (fragment_text default_prefix (fragment_tree t) 0)) };

    fn fmt<W: fmt::Write>(&self, f: &mut fmt::Formatter<W>) -> fmt::Result {
        self.serialize().fmt(f)
    }
}
