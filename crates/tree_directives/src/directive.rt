//! Directives: their uses and their definitions.
ghost use Rattle.std.specs.Prelude.{◌≡◌, [], find};
ghost use Rattle.std.specs.Option.{option_map, option_copied};
ghost use Rattle.tree_literals.specs.in_names.Placed.{name_tree, node_tree};
ghost use Rattle.tree_literals.specs.ValueTree.{value_tree};
ghost use Rattle.tree_directives.specs.DirectiveTree.{argument_tree, directive_tree, directives_tree, input_value_tree, directive_definition_tree};
ghost use Rattle.tree_directives.specs.DirectiveQueries.{input_value_has_name, given_value, named_argument_value, defined_arguments, lent_value};

use crate::argument_error::ArgumentByNameError;
use crate::directive_location::DirectiveLocation;
use crate::input_value::InputValueDefinition;
use std::alloc::{AllocError, Global};
use tree_literals::{Name, Node, NodeStr, Value, copies_of_five};

/// `name: value` (section 2.6).
#[derive(PartialEq, Eq, Hash)]
pub struct Argument {
    pub name: Name,
    pub value: Node<Value>,
}

impl Drop for Argument {
    fn drop(self) {
        let Argument { name: _, value: _ } = self;
    }
}

/// `@name(arguments)` (section 2.12).
#[derive(PartialEq, Eq, Hash)]
pub struct Directive {
    pub name: Name,
    pub arguments: Vec<Node<Argument>>,
}

// Not derived: a derived drop is proved again in every crate that uses it.
impl Drop for Directive {
    fn drop(self) {
        let Directive {
            name: _,
            arguments: _,
        } = self;
    }
}

/// The directives that are applied at one place, in order.
#[derive(PartialEq, Eq, Hash)]
pub struct DirectiveList(pub Vec<Node<Directive>>);

impl Drop for DirectiveList {
    fn drop(self) {
        let DirectiveList(_) = self;
    }
}

/// `directive @name(arguments) @directives repeatable on locations` (section 3.13; its own directives go past October 2021).
#[derive(PartialEq, Eq, Hash)]
pub struct DirectiveDefinition {
    pub description: Option<NodeStr>,
    pub name: Name,
    pub arguments: Vec<Node<InputValueDefinition>>,
    pub directives: DirectiveList,
    pub repeatable: bool,
    pub locations: Vec<DirectiveLocation>,
}

// Not derived: a derived drop is proved again in every crate that uses it.
impl Drop for DirectiveDefinition {
    fn drop(self) {
        let DirectiveDefinition {
            description: _,
            name: _,
            arguments: _,
            directives: _,
            repeatable: _,
            locations: _,
        } = self;
    }
}

impl Directive {
    /// `@name`, without arguments.
    pub fn new(alloc: Global, name: Name) -> Directive
        ensures { directive_tree result ≡ record { name = name_tree name; arguments = [] } }
    {
        Directive {
            name,
            arguments: Vec::new(alloc),
        }
    }

    /// The value given for the argument of that name, if one is.
    pub fn specified_argument_by_name(&self, name: &str) -> Option<&Node<Value>>
        ensures { option_map (node_tree value_tree) (option_copied result) ≡ given_value name.now (directive_tree self.now).arguments }
    {
        for argument in &self.arguments {
            if argument.content().name.as_str() == name {
                return Some(&argument.content().value);
            }
        }
        None
    }

    /// The value of the argument of that name: the one given, whatever the definition. Else the default by the
    /// definition, or None where the type is nullable, an implicit null. Else the error `UndefinedDirective` without a
    /// definition, `NoSuchArgument` where it has no such argument, `RequiredArgumentNotSpecified` where that is non-null.
    pub fn argument_by_name<'a>(
        &'a self,
        name: &str,
        definition: Option<&'a DirectiveDefinition>,
    ) -> Result<Option<&'a Node<Value>>, ArgumentByNameError>
        ensures { lent_value result ≡ named_argument_value name.now (directive_tree self.now).arguments (defined_arguments (option_copied definition.entry)) }
    {
        if let Some(value) = self.specified_argument_by_name(name) {
            return Ok(Some(value));
        }
        let Some(definition) = definition else {
            return Err(ArgumentByNameError::UndefinedDirective);
        };
        let Some(argument) = definition.argument_by_name(name) else {
            return Err(ArgumentByNameError::NoSuchArgument);
        };
        argument.content().default_or_null()
    }
}

impl DirectiveDefinition {
    /// The definition of the argument of that name, if there is one: the first of them.
    pub fn argument_by_name(&self, name: &str) -> Option<&Node<InputValueDefinition>>
        ensures { option_map (node_tree input_value_tree) (option_copied result) ≡ find (input_value_has_name name.now) (directive_definition_tree self.now).arguments }
    {
        for argument in &self.arguments {
            if argument.content().name.as_str() == name {
                return Some(argument);
            }
        }
        None
    }
}

impl Clone for Argument {
    ghost is_clone = { λ a copy. argument_tree copy ≡ argument_tree a };

    fn clone(&self) -> Result<Argument, AllocError> {
        Ok(Argument {
            name: self.name.clone()?,
            value: self.value.clone()?,
        })
    }
}

impl Clone for Directive {
    ghost is_clone = { λ d copy. directive_tree copy ≡ directive_tree d };

    fn clone(&self) -> Result<Directive, AllocError> {
        Ok(Directive {
            name: self.name.clone()?,
            arguments: self.arguments.clone()?,
        })
    }
}

impl Clone for DirectiveList {
    ghost is_clone = { λ ds copy. directives_tree copy ≡ directives_tree ds };

    fn clone(&self) -> Result<DirectiveList, AllocError> {
        Ok(DirectiveList(self.0.clone()?))
    }
}

impl Clone for DirectiveDefinition {
    ghost is_clone = { λ d copy. directive_definition_tree copy ≡ directive_definition_tree d };

    fn clone(&self) -> Result<DirectiveDefinition, AllocError> {
        let (description, name, arguments, directives, locations) = copies_of_five(
            &self.description,
            &self.name,
            &self.arguments,
            &self.directives,
            &self.locations,
        )?;
        Ok(DirectiveDefinition {
            description,
            name,
            arguments,
            directives,
            repeatable: self.repeatable,
            locations,
        })
    }
}
