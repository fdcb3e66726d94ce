//! Operations and fragments under a schema.
ghost use Rattle.std.specs.Prelude.{◌≡◌, ◌↔◌, IsTrue};
ghost use Rattle.graphql_names.specs.Placed.{name_tree};
ghost use Rattle.tree_directives.specs.declared.operation_type.OperationType.TheVariants as kind;
ghost use Rattle.document_typed_selections.specs.TypedTree.{set_type};
ghost use Rattle.document_typed_operations.specs.TypedDocument.{typed_operation_tree, typed_fragment_tree};

use document_typed_selections::SelectionSet;
use graphql_names::{Name, Node};
use std::alloc::AllocError;
use tree_directives::DirectiveList;
use tree_literals::{NamedType, copies_of_four, copies_of_three};
use tree_operations::{OperationType, VariableDefinition};

/// An operation (section 2.3), its selection set on the root type of its kind.
#[derive(PartialEq, Eq, Hash)]
pub struct Operation {
    pub operation_type: OperationType,
    pub name: Option<Name>,
    pub variables: Vec<Node<VariableDefinition>>,
    pub directives: DirectiveList,
    pub selection_set: SelectionSet,
}

// Not derived: a derived drop is proved again in each crate that drops one.
impl Drop for Operation {
    fn drop(self) {
        let Operation {
            operation_type: _,
            name: _,
            variables: _,
            directives: _,
            selection_set: _,
        } = self;
    }
}

/// A fragment (section 2.8), its selection set on the type of its condition.
#[derive(PartialEq, Eq, Hash)]
pub struct Fragment {
    pub name: Name,
    pub directives: DirectiveList,
    pub selection_set: SelectionSet,
}

// Not derived: a derived drop is proved again in each crate that drops one.
impl Drop for Fragment {
    fn drop(self) {
        let Fragment {
            name: _,
            directives: _,
            selection_set: _,
        } = self;
    }
}

impl Operation {
    /// The name of the root type that it selects on.
    #[tactic(auto, using(crate::proofs::TypedSets::typed_set_tree_out))]
    pub fn object_type(&self) -> &NamedType
        ensures { name_tree result.now ≡ set_type (typed_operation_tree self.now).set }
    {
        &self.selection_set.ty
    }

    /// Whether it is a query.
    pub fn is_query(&self) -> bool
        ensures { IsTrue result ↔ ((typed_operation_tree self.now).operation_type ≡ kind.Query) }
    {
        self.operation_type.is_query()
    }

    /// Whether it is a mutation.
    pub fn is_mutation(&self) -> bool
        ensures { IsTrue result ↔ ((typed_operation_tree self.now).operation_type ≡ kind.Mutation) }
    {
        self.operation_type.is_mutation()
    }

    /// Whether it is a subscription.
    pub fn is_subscription(&self) -> bool
        ensures { IsTrue result ↔ ((typed_operation_tree self.now).operation_type ≡ kind.Subscription) }
    {
        self.operation_type.is_subscription()
    }
}

impl Fragment {
    /// The name of the type of its condition.
    #[tactic(auto, using(crate::proofs::TypedSets::typed_set_tree_out))]
    pub fn type_condition(&self) -> &NamedType
        ensures { name_tree result.now ≡ set_type (typed_fragment_tree self.now).set }
    {
        &self.selection_set.ty
    }
}

impl Clone for Operation {
    ghost is_clone = { λ o copy. typed_operation_tree copy ≡ typed_operation_tree o };

    fn clone(&self) -> Result<Operation, AllocError> {
        let (name, variables, directives, selection_set) = copies_of_four(
            &self.name,
            &self.variables,
            &self.directives,
            &self.selection_set,
        )?;
        Ok(Operation {
            operation_type: self.operation_type,
            name,
            variables,
            directives,
            selection_set,
        })
    }
}

impl Clone for Fragment {
    ghost is_clone = { λ f copy. typed_fragment_tree copy ≡ typed_fragment_tree f };

    fn clone(&self) -> Result<Fragment, AllocError> {
        let (name, directives, selection_set) = copies_of_three(
            &self.name,
            &self.directives,
            &self.selection_set,
        )?;
        Ok(Fragment {
            name,
            directives,
            selection_set,
        })
    }
}
