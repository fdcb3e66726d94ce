//! Whether the grammar can write directives, or the definition of an input value or a directive.
ghost use Rattle.std.specs.Prelude.{◌≡◌, ◌&&◌, Bool, true, false, not, map};
ghost use Rattle.std.specs.List.{list_all};
ghost use Rattle.tree_literals.specs.in_names.Placed.{node_tree, Place};
ghost use Rattle.tree_literals.specs.ValueWritable.{value_writable, default_writable};
ghost use Rattle.tree_directives.specs.DirectiveTree.{argument_tree, directive_tree, directives_tree, input_value_tree, directive_definition_tree};
ghost use Rattle.tree_directives.specs.DirectiveWritable.{arguments_writable, directive_writable, directives_writable, directive_list_writable, input_value_writable, input_values_writable, directive_definition_writable};

use crate::directive::{Argument, Directive, DirectiveDefinition, DirectiveList};
use crate::input_value::InputValueDefinition;
use tree_literals::{Node, default_is_writable, value_is_writable};

/// Whether the grammar can write arguments. `is_const` says that no variable is allowed. Public for the crates above.
pub fn arguments_are_writable(is_const: bool, arguments: &[Node<Argument>]) -> bool
    ensures { result ≡ arguments_writable is_const (map (node_tree argument_tree) arguments.now) }
{
    for argument in arguments {
        if !value_is_writable(is_const, argument.content().value.content()) {
            return false;
        }
    }
    true
}

fn each_directive_is_writable(is_const: bool, directives: &[Node<Directive>]) -> bool
    ensures { result ≡ directives_writable is_const (map (node_tree directive_tree) directives.now) }
{
    for directive in directives {
        if !arguments_are_writable(is_const, &directive.content().arguments) {
            return false;
        }
    }
    true
}

/// The same for directives.
pub fn directives_are_writable(is_const: bool, directives: &DirectiveList) -> bool
    ensures { result ≡ directives_writable is_const (directives_tree directives.now) }
{
    each_directive_is_writable(is_const, &directives.0)
}

/// Whether the grammar can write definitions of input values. Public for the crates above.
pub fn input_values_are_writable(inputs: &[Node<InputValueDefinition>]) -> bool
    ensures { result ≡ input_values_writable (map (node_tree input_value_tree) inputs.now) }
{
    for input in inputs {
        if !input.content().is_writable() {
            return false;
        }
    }
    true
}

impl Argument {
    /// Whether the grammar can write it.
    pub fn is_writable(&self) -> bool
        ensures { result ≡ value_writable false (argument_tree self.now).value.it }
    {
        value_is_writable(false, self.value.content())
    }
}

impl Directive {
    /// Whether the grammar can write it.
    pub fn is_writable(&self) -> bool
        ensures { result ≡ directive_writable false (directive_tree self.now) }
    {
        arguments_are_writable(false, &self.arguments)
    }
}

impl DirectiveList {
    /// Whether the grammar can write it: it requires at least one directive.
    pub fn is_writable(&self) -> bool
        ensures { result ≡ directive_list_writable (directives_tree self.now) }
    {
        !self.0.is_empty() && directives_are_writable(false, self)
    }
}

impl InputValueDefinition {
    /// Whether the grammar can write it.
    pub fn is_writable(&self) -> bool
        ensures { result ≡ input_value_writable (input_value_tree self.now) }
    {
        default_is_writable(&self.default_value) && directives_are_writable(true, &self.directives)
    }
}

impl DirectiveDefinition {
    /// Whether the grammar can write it.
    pub fn is_writable(&self) -> bool
        ensures { result ≡ directive_definition_writable (directive_definition_tree self.now) }
    {
        input_values_are_writable(&self.arguments)
            && directives_are_writable(true, &self.directives)
            && !self.locations.is_empty()
    }
}
