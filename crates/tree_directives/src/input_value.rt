//! Definitions of arguments and of the fields of input objects.
ghost use Rattle.std.specs.Prelude.{◌≡◌};
ghost use Rattle.tree_literals.specs.TypeQueries.{has_mark};
ghost use Rattle.tree_directives.specs.DirectiveTree.{input_value_tree};
ghost use Rattle.tree_directives.specs.DirectiveQueries.{is_required_input, default_or_null, lent_value};

use crate::argument_error::ArgumentByNameError;
use crate::directive::DirectiveList;
use std::alloc::AllocError;
use tree_literals::{Name, Node, NodeStr, Type, Value, copies_of_five};

/// An argument of a field or directive, or a field of an input object (section 3.6.1 and 3.10).
#[derive(PartialEq, Eq, Hash)]
pub struct InputValueDefinition {
    pub description: Option<NodeStr>,
    pub name: Name,
    pub ty: Node<Type>,
    pub default_value: Option<Node<Value>>,
    pub directives: DirectiveList,
}

// Not derived: a derived drop is proved again in every crate that uses it.
impl Drop for InputValueDefinition {
    fn drop(self) {
        let InputValueDefinition {
            description: _,
            name: _,
            ty: _,
            default_value: _,
            directives: _,
        } = self;
    }
}

impl InputValueDefinition {
    /// Whether a value has to be given: the type is non-null, and there is no default (section 5.4.2.1).
    pub fn is_required(&self) -> bool
        ensures { result ≡ is_required_input (input_value_tree self.now) }
    {
        self.ty.content().is_non_null() && self.default_value.is_none()
    }

    /// The value where none is given: the default, or None where the type is nullable, an implicit null. Else the error
    /// `RequiredArgumentNotSpecified`.
    pub fn default_or_null(&self) -> Result<Option<&Node<Value>>, ArgumentByNameError>
        ensures { lent_value result ≡ default_or_null (input_value_tree self.now).default_value (has_mark (input_value_tree self.now).ty.it) }
    {
        if let Some(value) = &self.default_value {
            return Ok(Some(value));
        }
        if self.is_required() {
            return Err(ArgumentByNameError::RequiredArgumentNotSpecified);
        }
        Ok(None)
    }
}

impl Clone for InputValueDefinition {
    ghost is_clone = { λ v copy. input_value_tree copy ≡ input_value_tree v };

    fn clone(&self) -> Result<InputValueDefinition, AllocError> {
        let (description, name, ty, default_value, directives) = copies_of_five(
            &self.description,
            &self.name,
            &self.ty,
            &self.default_value,
            &self.directives,
        )?;
        Ok(InputValueDefinition {
            description,
            name,
            ty,
            default_value,
            directives,
        })
    }
}
