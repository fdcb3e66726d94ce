//! Copies of trees, and hashes of equal trees.

use graphql_names::Node;
use std::hash::{DefaultHasher, Hash, Hasher};
use tree_definitions::{Definition, Document};
use tree_directives::DirectiveList;
use tree_operations::{OperationDefinition, Selection};

/// The hash of a value.
pub(crate) fn hash_of<T: Hash>(value: &T) -> u64 {
    let mut hasher = DefaultHasher::default();
    value.hash(&mut hasher);
    hasher.finish()
}

/// Whether the value's copy equals it.
pub(crate) fn is_copied<T: Clone + PartialEq>(value: &T) -> bool {
    match value.clone() {
        Ok(copy) => copy == *value,
        Err(_) => false,
    }
}

/// Whether the copy of what is in each node equals what is in it.
fn are_copied<T: Clone + PartialEq>(nodes: &[Node<T>]) -> bool {
    for node in nodes {
        if !is_copied(node.content()) {
            return false;
        }
    }
    true
}

/// Whether the document's copy equals it, and that of each definition and of what is in it.
pub(crate) fn document_is_copied(document: &Document) -> bool {
    for definition in &document.definitions {
        if !is_copied(definition) || !content_is_copied(definition) {
            return false;
        }
    }
    is_copied(document)
}

/// Whether the copy of what is in the definition equals it, and so do the copies of its parts.
fn content_is_copied(definition: &Definition) -> bool {
    match definition {
        Definition::OperationDefinition(node) => operation_is_copied(node.content()),
        Definition::FragmentDefinition(node) => is_copied(node.content()),
        Definition::DirectiveDefinition(node) => {
            is_copied(node.content()) && are_copied(&node.content().arguments)
        }
        Definition::SchemaDefinition(node) => is_copied(node.content()),
        Definition::SchemaExtension(node) => is_copied(node.content()),
        Definition::ScalarTypeDefinition(node) => is_copied(node.content()),
        Definition::ObjectTypeDefinition(node) => {
            is_copied(node.content()) && are_copied(&node.content().fields)
        }
        Definition::InterfaceTypeDefinition(node) => is_copied(node.content()),
        Definition::UnionTypeDefinition(node) => is_copied(node.content()),
        Definition::EnumTypeDefinition(node) => {
            is_copied(node.content()) && are_copied(&node.content().values)
        }
        Definition::InputObjectTypeDefinition(node) => is_copied(node.content()),
        Definition::ScalarTypeExtension(node) => is_copied(node.content()),
        Definition::ObjectTypeExtension(node) => is_copied(node.content()),
        Definition::InterfaceTypeExtension(node) => is_copied(node.content()),
        Definition::UnionTypeExtension(node) => is_copied(node.content()),
        Definition::EnumTypeExtension(node) => is_copied(node.content()),
        Definition::InputObjectTypeExtension(node) => is_copied(node.content()),
    }
}

/// Whether the operation's copy equals it, and those of its variables, directives and selections.
fn operation_is_copied(operation: &OperationDefinition) -> bool {
    is_copied(operation)
        && are_copied(&operation.variables)
        && directives_are_copied(&operation.directives)
        && selections_are_copied(&operation.selection_set)
}

/// Whether copies of what is in the selections equal that.
fn selections_are_copied(selections: &[Selection]) -> bool {
    for selection in selections {
        let is_so = match selection {
            Selection::Field(node) => is_copied(node.content()),
            Selection::FragmentSpread(node) => is_copied(node.content()),
            Selection::InlineFragment(node) => is_copied(node.content()),
        };
        if !is_so || !is_copied(selection) {
            return false;
        }
    }
    true
}

/// Whether copies of the directives, of their arguments and of the values of these equal them.
fn directives_are_copied(list: &DirectiveList) -> bool {
    for directive in &list.0 {
        for argument in &directive.content().arguments {
            if !is_copied(argument.content().value.content()) {
                return false;
            }
        }
        if !are_copied(&directive.content().arguments) {
            return false;
        }
    }
    are_copied(&list.0)
}
