//! What is kept of a set, in lines: each selection with what it means, and below it, indented, those in it.

use crate::lines::{push_field, push_inline, push_spread};
use graphql_documents::{Selection, SelectionSet};
use row_files::Lines;

/// Adds the lines of the selections of a set at this depth.
#[cycle(outline)]
pub(crate) fn push_set(set: &SelectionSet, depth: usize, lines: &mut Lines) {
    for selection in &set.selections {
        push_depth(depth, lines);
        push_selection(selection, depth.saturating_add(1), lines);
    }
}

/// Adds the line of a selection at this depth, and those of what is in it.
#[cycle(outline)]
fn push_selection(selection: &Selection, depth: usize, lines: &mut Lines) {
    match selection {
        Selection::Field(field) => {
            push_field("", field.content(), lines);
            push_set(&field.content().selection_set, depth, lines);
        }
        Selection::FragmentSpread(spread) => push_spread(spread.content(), lines),
        Selection::InlineFragment(inline) => {
            push_inline(inline.content(), lines);
            push_set(&inline.content().selection_set, depth, lines);
        }
    }
}

/// Adds two spaces for each level.
fn push_depth(depth: usize, lines: &mut Lines) {
    for _ in 0..depth {
        lines.put("  ");
    }
}
