//! The fields of objects and interfaces.
ghost use Rattle.std.specs.Prelude.{◌≡◌, IfOk};
ghost use Rattle.std.specs.Option.{option_map};
ghost use Rattle.tree_literals.specs.in_names.Placed.{node_tree};
ghost use Rattle.tree_literals.specs.TypeTree.{type_tree};
ghost use Rattle.tree_directives.specs.DirectiveTree.{input_value_tree, input_value_trees};
ghost use Rattle.tree_type_members.specs.TypeSystemTree.{field_definition_tree};
ghost use Rattle.tree_type_members.specs.ArgumentQueries.{argument_named};

use crate::copies::clone_described;
use std::alloc::AllocError;
use tree_directives::{DirectiveList, InputValueDefinition};
use tree_literals::{Name, Node, NodeStr, Type};

/// `name(arguments): ty @directives` (section 3.6).
#[derive(PartialEq, Eq, Hash)]
pub struct FieldDefinition {
    pub description: Option<NodeStr>,
    pub name: Name,
    pub arguments: Vec<Node<InputValueDefinition>>,
    pub ty: Type,
    pub directives: DirectiveList,
}

// Not derived: a derived drop is proved again in every crate that uses it.
impl Drop for FieldDefinition {
    fn drop(self) {
        let FieldDefinition {
            description: _,
            name: _,
            arguments: _,
            ty: _,
            directives: _,
        } = self;
    }
}

impl FieldDefinition {
    /// The definition of its first argument of that name.
    pub fn argument_by_name(&self, name: &str) -> Option<&Node<InputValueDefinition>>
        ensures { option_map (λ a. node_tree input_value_tree a.now) result ≡ argument_named name.now (field_definition_tree self.now).arguments }
    {
        for argument in &self.arguments {
            if argument.content().name.as_str() == name {
                return Some(argument);
            }
        }
        None
    }
}

/// The same arguments and the same type.
fn clone_signature(
    arguments: &Vec<Node<InputValueDefinition>>,
    ty: &Type,
) -> Result<(Vec<Node<InputValueDefinition>>, Type), AllocError>
    ensures { IfOk result (λ copy. (input_value_trees copy.0.items ≡ input_value_trees arguments.now.items) × (type_tree copy.1 ≡ type_tree ty.now)) }
{
    Ok((arguments.clone()?, ty.clone()?))
}

impl Clone for FieldDefinition {
    ghost is_clone = { λ f copy. field_definition_tree copy ≡ field_definition_tree f };

    fn clone(&self) -> Result<FieldDefinition, AllocError> {
        let (description, name, directives) = clone_described(
            &self.description,
            &self.name,
            &self.directives,
        )?;
        let (arguments, ty) = clone_signature(&self.arguments, &self.ty)?;
        Ok(FieldDefinition {
            description,
            name,
            arguments,
            ty,
            directives,
        })
    }
}
