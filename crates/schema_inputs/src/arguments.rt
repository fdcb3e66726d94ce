//! The arguments of one field or directive definition.
ghost use Rattle.std.specs.Prelude.{◌≡◌, find, IfSome};
ghost use Rattle.std.specs.Option.{option_map};
ghost use Rattle.graphql_names.specs.Placed.{node_tree};
ghost use Rattle.tree_directives.specs.DirectiveTree.{input_value_tree, input_value_trees};
ghost use Rattle.tree_directives.specs.DirectiveQueries.{input_value_has_name};
ghost use Rattle.schema_inputs.specs.Firsts.{AreNumbers};
ghost use Rattle.schema_inputs.specs.Inputs.{input_name, required_inputs, AreKnown};

use crate::known::KnownArguments;
use graphql_names::{Name, Node};
use indexmap::IndexMap;
use std::marker::Model;
use tree_directives::InputValueDefinition;

/// The arguments of one field or directive definition, and what is known of them, if anything is.
///
/// Contracts see them as the list of their definitions.
pub struct DefinedArguments<'a> {
    nodes: &'a [Node<InputValueDefinition>],
    known: Option<&'a KnownArguments>,
}

impl Drop for DefinedArguments<'_> {
    fn drop(self) {
        let DefinedArguments { nodes: _, known: _ } = self;
    }
}

impl<'a> Model for DefinedArguments<'a> {
    ghost use Rattle.std.specs.Prelude.{List, IfSome};
    ghost use Rattle.std.specs.Coded.{codes};
    ghost use Rattle.graphql_names.specs.declared.node.Node.{Node};
    ghost use Rattle.tree_directives.specs.DirectiveTree.{input_value_trees};
    ghost use Rattle.tree_directives.specs.declared.input_value.InputValueDefinition.{InputValueDefinition};
    ghost use Rattle.tree_directives.specs.contracts.input_value.InputValueDefinition as definition;
    ghost use Rattle.schema_inputs.specs.Inputs.{AreKnown};

    ghost Value = { List (Node InputValueDefinition) };

    ghost coded = { Prim.hlevel (codes, definition.the_row.coded) };

    ghost view = { λ d. d.nodes.now };

    ghost invariant = { λ d. IfSome d.known (λ known. AreKnown (input_value_trees d.nodes.now) known.now) };
}

/// Making them, and queries on them.
impl<'a> DefinedArguments<'a> {
    /// These arguments, of which nothing is known.
    pub fn listed(nodes: &'a [Node<InputValueDefinition>]) -> DefinedArguments<'a>
        ensures { result ≡ nodes.now }
    {
        DefinedArguments { nodes, known: None }
    }

    /// These arguments, with what is known of them, if anything is.
    pub fn new(
        nodes: &'a [Node<InputValueDefinition>],
        known: Option<&'a KnownArguments>,
    ) -> DefinedArguments<'a>
        requires { IfSome known (λ known. AreKnown (input_value_trees nodes.now) known.now) }
        ensures { result ≡ nodes.now }
    {
        DefinedArguments { nodes, known }
    }

    /// The definitions of the arguments.
    pub fn nodes(&self) -> &'a [Node<InputValueDefinition>]
        ensures { result.now ≡ self.now }
    {
        self.nodes
    }

    /// Under each name the index of the first argument with that name, if that is known.
    pub fn numbers(&self) -> Option<&'a IndexMap<Name, usize>>
        ensures { IfSome result (λ numbers. AreNumbers input_name numbers.now (input_value_trees self.now)) }
    {
        match self.known {
            None => None,
            Some(known) => Some(&known.numbers),
        }
    }

    /// The first argument with that name.
    pub fn find(&self, name: &Name) -> Option<&'a Node<InputValueDefinition>>
        ensures { option_map (λ v. node_tree input_value_tree v.now) result ≡ find (input_value_has_name name.now.text) (input_value_trees self.now) }
    {
        self.find_by(self.numbers(), name)
    }

    /// The first argument with that name; `numbers` has under each name the index of the first, if they are noted.
    pub fn find_by(
        &self,
        numbers: Option<&IndexMap<Name, usize>>,
        name: &Name,
    ) -> Option<&'a Node<InputValueDefinition>>
        requires { IfSome numbers (λ numbers. AreNumbers input_name numbers.now (input_value_trees self.now)) }
        ensures { option_map (λ v. node_tree input_value_tree v.now) result ≡ find (input_value_has_name name.now.text) (input_value_trees self.now) }
    {
        match numbers {
            None => find_listed(self.nodes, name),
            Some(numbers) => find_numbered(self.nodes, numbers, name),
        }
    }

    /// All required arguments, in order; if nothing is known of the arguments, all others too.
    pub fn with_required(&self) -> &'a [Node<InputValueDefinition>]
        ensures { required_inputs (input_value_trees result.now) ≡ required_inputs (input_value_trees self.now) }
    {
        match self.known {
            None => self.nodes,
            Some(known) => known.required.as_slice(),
        }
    }
}

/// The first of these definitions that has that name; the list is scanned.
fn find_listed<'a>(
    definitions: &'a [Node<InputValueDefinition>],
    name: &Name,
) -> Option<&'a Node<InputValueDefinition>>
    ensures { option_map (λ v. node_tree input_value_tree v.now) result ≡ find (input_value_has_name name.now.text) (input_value_trees definitions.now) }
{
    for definition in definitions {
        if definition.content().name.as_str() == name.as_str() {
            return Some(definition);
        }
    }
    None
}

/// The first of these definitions that has that name; `numbers` has its index.
fn find_numbered<'a>(
    definitions: &'a [Node<InputValueDefinition>],
    numbers: &IndexMap<Name, usize>,
    name: &Name,
) -> Option<&'a Node<InputValueDefinition>>
    requires { AreNumbers input_name numbers.now (input_value_trees definitions.now) }
    ensures { option_map (λ v. node_tree input_value_tree v.now) result ≡ find (input_value_has_name name.now.text) (input_value_trees definitions.now) }
{
    match numbers.get(name) {
        None => None,
        Some(index) => definitions.get(*index),
    }
}
