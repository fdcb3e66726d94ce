//! What a checked document lends, in words.

use document_typed_operations::ExecutableDocument;
use document_typed_selections::{Field, SelectionSet};
use graphql_names::Node;
use row_files::Answer;
use rule_reach::{FieldSelection, laws};
use std::hash::{DefaultHasher, Hash, Hasher};

/// Adds a line for each field of the sets of its operations, and then of its fragments.
pub(crate) fn push_lent(document: &ExecutableDocument, answer: &mut Answer) {
    for operation in document.operations.iter() {
        push_set(&operation.content().selection_set, answer);
    }
    for fragment in document.fragments.values() {
        push_set(&fragment.content().selection_set, answer);
    }
    answer.status.put("0");
}

/// Adds a line for each field of the set, apart from those in further sets.
fn push_set(set: &SelectionSet, answer: &mut Answer) {
    for selection in &set.selections {
        if let Some(field) = selection.as_field() {
            push_field(set, field, answer);
        }
    }
}

/// Adds a line for the field: its coordinate, the type inside that of its definition, the directives of that, and the number
/// of the first field of the set that says the same.
fn push_field(set: &SelectionSet, field: &Node<Field>, answer: &mut Answer) {
    let selection = FieldSelection {
        parent_type: &set.ty,
        field,
    };
    match selection.coordinate() {
        Ok(coordinate) => answer.text.show(&coordinate),
        Err(_) => answer.status.put("4 out of memory"),
    }
    let inner = field.content().ty().inner_named_type();
    answer.text.show_between(": ", inner, "");
    for directive in &field.content().definition.content().directives.0 {
        answer
            .text
            .show_between(" @", &directive.content().name, "");
    }
    answer
        .text
        .show_between(", as ", &first_alike(set, &selection), "\n");
}

/// The number, counted from 1, of the first field of the set that says the same as this one. Without one it is 0.
fn first_alike(set: &SelectionSet, selection: &FieldSelection<'_>) -> usize {
    let mut number = 0_usize;
    for field in set.fields() {
        let other = FieldSelection {
            parent_type: &set.ty,
            field,
        };
        number = number.saturating_add(1);
        if are_alike(&other, selection) {
            return number;
        }
    }
    0
}

/// Whether the fields are equal, and their hashes.
fn are_alike(one: &FieldSelection<'_>, other: &FieldSelection<'_>) -> bool {
    laws::equal_field_selections(one, other) && hash_of(one) == hash_of(other)
}

/// The hash of a value.
fn hash_of<T: Hash>(value: &T) -> u64 {
    let mut hasher = DefaultHasher::default();
    value.hash(&mut hasher);
    hasher.finish()
}
