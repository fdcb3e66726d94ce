//! What a document holds, by call: all that is kept, what is written of it, or the fields that a walk lends.

use crate::lines::{push_field, push_fragment, push_operation};
use crate::outline::push_set;
use graphql_documents::{
    AllFields, ExecutableDocument, Operation, OperationExt, RootFields, SelectionSet,
};
use row_files::Lines;
use std::alloc::{AllocError, Global};
use tree_literals::Tree;

/// Adds what the call tells of the document: what is written, or of each operation, and of each fragment that is kept,
/// in order, after a line of its own.
pub(crate) fn push_kept(
    alloc: Global,
    call: &str,
    document: &ExecutableDocument,
    lines: &mut Lines,
) -> Result<(), AllocError> {
    if call == "written" {
        return push_written(alloc, document, lines);
    }
    for operation in document.operations.iter() {
        push_operation(operation.content(), lines);
        push_walk(alloc, call, operation.content(), document, lines)?;
    }
    if call == "document" || call == "fields" {
        push_fragments(call, document, lines);
    }
    Ok(())
}

/// Adds the document as it is written, on one line.
fn push_written(
    alloc: Global,
    document: &ExecutableDocument,
    lines: &mut Lines,
) -> Result<(), AllocError> {
    let written = document.to_ast(alloc)?;
    lines.show_between("", &written.serialize().no_indent(), "\n");
    Ok(())
}

/// Adds what is kept of each fragment, after a line of its own.
fn push_fragments(call: &str, document: &ExecutableDocument, lines: &mut Lines) {
    for fragment in document.fragments.values() {
        push_fragment(fragment.content(), lines);
        push_by(call, &fragment.content().selection_set, lines);
    }
}

/// Adds what is kept of a set: the types of its own fields, or the selections at each depth.
fn push_by(call: &str, set: &SelectionSet, lines: &mut Lines) {
    if call == "fields" {
        push_own_fields(set, lines);
    } else {
        push_set(set, 1, lines);
    }
}

/// Adds the response key of each field of the set itself, and the name in its type.
fn push_own_fields(set: &SelectionSet, lines: &mut Lines) {
    for field in set.fields() {
        let field = field.content();
        lines.show_between("  ", field.response_key(), ": ");
        lines.show_between("", field.ty().inner_named_type(), "\n");
    }
}

/// Adds what a walk from an operation lends, or whether the operation is an introspection, or what is kept of it.
fn push_walk(
    alloc: Global,
    call: &str,
    operation: &Operation,
    document: &ExecutableDocument,
    lines: &mut Lines,
) -> Result<(), AllocError> {
    match call {
        "all_fields" => push_all_fields(operation.all_fields(alloc, document), lines),
        "root_fields" => push_root_fields(operation.root_fields(alloc, document), lines),
        "introspection" => {
            let is_so = operation.is_introspection(alloc, document)?;
            lines.put(if is_so { "  yes\n" } else { "  no\n" });
            Ok(())
        }
        _ => Ok(push_by(call, &operation.selection_set, lines)),
    }
}

/// Adds each field that the walk lends, which the operation reaches at any depth, and then the end of the walk.
fn push_all_fields(walk: AllFields<'_>, lines: &mut Lines) -> Result<(), AllocError> {
    let mut walk = walk;
    for field in &mut walk {
        push_field("  ", field?.content(), lines);
    }
    push_end(walk.next().is_none() && walk.next().is_none(), lines);
    Ok(())
}

/// Adds each field that the walk lends, which the operation reaches without entering a field, and then the end of the
/// walk.
fn push_root_fields(walk: RootFields<'_>, lines: &mut Lines) -> Result<(), AllocError> {
    let mut walk = walk;
    for field in &mut walk {
        push_field("  ", field?.content(), lines);
    }
    push_end(walk.next().is_none() && walk.next().is_none(), lines);
    Ok(())
}

/// Adds the end of a walk: whether it lends nothing more, asked twice.
fn push_end(is_over: bool, lines: &mut Lines) {
    lines.put(if is_over {
        "  end\n"
    } else {
        "  and something after the end\n"
    });
}
