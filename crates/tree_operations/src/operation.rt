//! Operations and fragments.
ghost use Rattle.std.specs.Prelude.{◌≡◌};
ghost use Rattle.tree_operations.specs.OperationTree.{variable_definition_tree, operation_tree, fragment_tree};

use crate::selection::Selection;
use std::alloc::AllocError;
use std::fmt;
use tree_directives::{
    DirectiveList, Name, NamedType, Node, OperationType, Type, Value, copies_of_four,
};

/// `$name: ty = default_value @directives` (section 2.10).
#[derive(PartialEq, Eq, Hash)]
pub struct VariableDefinition {
    pub name: Name,
    pub ty: Node<Type>,
    pub default_value: Option<Node<Value>>,
    pub directives: DirectiveList,
}

// Not derived: a derived drop is proved again in every crate that uses it.
impl Drop for VariableDefinition {
    fn drop(self) {
        let VariableDefinition {
            name: _,
            ty: _,
            default_value: _,
            directives: _,
        } = self;
    }
}

/// `query name(variables) @directives { selections }` (section 2.3).
#[derive(PartialEq, Eq, Hash)]
pub struct OperationDefinition {
    pub operation_type: OperationType,
    pub name: Option<Name>,
    pub variables: Vec<Node<VariableDefinition>>,
    pub directives: DirectiveList,
    pub selection_set: Vec<Selection>,
}

// Not derived: a derived drop is proved again in every crate that uses it.
impl Drop for OperationDefinition {
    fn drop(self) {
        let OperationDefinition {
            operation_type: _,
            name: _,
            variables: _,
            directives: _,
            selection_set: _,
        } = self;
    }
}

/// `fragment name on type_condition @directives { selections }` (section 2.8).
#[derive(PartialEq, Eq, Hash)]
pub struct FragmentDefinition {
    pub name: Name,
    pub type_condition: NamedType,
    pub directives: DirectiveList,
    pub selection_set: Vec<Selection>,
}

// Not derived: a derived drop is proved again in every crate that uses it.
impl Drop for FragmentDefinition {
    fn drop(self) {
        let FragmentDefinition {
            name: _,
            type_condition: _,
            directives: _,
            selection_set: _,
        } = self;
    }
}

impl Clone for VariableDefinition {
    ghost is_clone = { λ v copy. variable_definition_tree copy ≡ variable_definition_tree v };

    fn clone(&self) -> Result<VariableDefinition, AllocError> {
        let (name, ty, default_value, directives) = copies_of_four(
            &self.name,
            &self.ty,
            &self.default_value,
            &self.directives,
        )?;
        Ok(VariableDefinition {
            name,
            ty,
            default_value,
            directives,
        })
    }
}

impl Clone for OperationDefinition {
    ghost is_clone = { λ o copy. operation_tree copy ≡ operation_tree o };

    fn clone(&self) -> Result<OperationDefinition, AllocError> {
        let (name, variables, directives, selection_set) = copies_of_four(
            &self.name,
            &self.variables,
            &self.directives,
            &self.selection_set,
        )?;
        Ok(OperationDefinition {
            operation_type: self.operation_type,
            name,
            variables,
            directives,
            selection_set,
        })
    }
}

impl Clone for FragmentDefinition {
    ghost is_clone = { λ f copy. fragment_tree copy ≡ fragment_tree f };

    fn clone(&self) -> Result<FragmentDefinition, AllocError> {
        let (name, type_condition, directives, selection_set) = copies_of_four(
            &self.name,
            &self.type_condition,
            &self.directives,
            &self.selection_set,
        )?;
        Ok(FragmentDefinition {
            name,
            type_condition,
            directives,
            selection_set,
        })
    }
}
