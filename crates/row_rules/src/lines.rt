//! The lines that tell of a part of a document.

use graphql_documents::{Field, Fragment, FragmentSpread, InlineFragment, Operation};
use graphql_names::Name;
use row_files::Lines;
use std::fmt::Display;
use tree_directives::DirectiveList;

/// `query name(variables) @directives on TYPE`, and a line feed.
pub(crate) fn push_operation(operation: &Operation, lines: &mut Lines) {
    lines.put(operation.operation_type.name());
    push_optional(" ", &operation.name, "", lines);
    push_list(&operation.variables, lines);
    push_directives(&operation.directives, lines);
    lines.show_between(" on ", operation.object_type(), "\n");
}

/// `fragment name on TYPE @directives`, and a line feed.
pub(crate) fn push_fragment(fragment: &Fragment, lines: &mut Lines) {
    lines.show_between("fragment ", &fragment.name, " on ");
    lines.show(fragment.type_condition());
    push_directives(&fragment.directives, lines);
    lines.put("\n");
}

/// `alias: name(arguments) @directives by DEFINITION` after this, and a line feed.
pub(crate) fn push_field(front: &str, field: &Field, lines: &mut Lines) {
    lines.put(front);
    push_optional("", &field.alias, ": ", lines);
    lines.show(&field.name);
    push_list(&field.arguments, lines);
    push_directives(&field.directives, lines);
    lines.show_between(" by ", &field.definition, "\n");
}

/// `...name @directives`, and a line feed.
pub(crate) fn push_spread(spread: &FragmentSpread, lines: &mut Lines) {
    lines.show_between("...", &spread.fragment_name, "");
    push_directives(&spread.directives, lines);
    lines.put("\n");
}

/// `... on CONDITION @directives in TYPE`, and a line feed.
pub(crate) fn push_inline(inline: &InlineFragment, lines: &mut Lines) {
    lines.put("...");
    push_optional(" on ", &inline.type_condition, "", lines);
    push_directives(&inline.directives, lines);
    lines.show_between(" in ", &inline.selection_set.ty, "\n");
}

/// Adds the name between these, if there is one.
fn push_optional(front: &str, name: &Option<Name>, back: &str, lines: &mut Lines) {
    if let Some(name) = name {
        lines.show_between(front, name, back);
    }
}

/// Adds what is shown in parentheses, with a comma between each two, or nothing if there is nothing to show.
fn push_list<T: Display>(list: &[T], lines: &mut Lines) {
    let mut front = "(";
    for shown in list {
        lines.show_between(front, shown, "");
        front = ", ";
    }
    if !list.is_empty() {
        lines.put(")");
    }
}

/// Adds each directive after a space.
fn push_directives(directives: &DirectiveList, lines: &mut Lines) {
    for directive in &directives.0 {
        lines.show_between(" ", directive, "");
    }
}
