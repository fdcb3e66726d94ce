//! The trees that rows name: those that a row's input is read as, and some that no text is read as.

use crate::print::judge_tree;
use graphql_names::{FileId, Name, Node};
use graphql_read::{parse_document, parse_type};
use graphql_values::ty;
use row_files::{Case, Field, Problem, Tally, text_of};
use std::alloc::{AllocError, Global};
use tree_definitions::{Definition, Document};
use tree_directives::{Directive, DirectiveDefinition, DirectiveList};
use tree_literals::{IntValue, Value};
use tree_operations::{FragmentDefinition, OperationDefinition};

/// Judges what the row asks of the tree that it names: what is printed of it, or whether it is writable.
pub(crate) fn by_tree(alloc: Global, case: Case<'_>, tally: &mut Tally) -> Result<(), Problem> {
    let field = case.row.needed("tree")?;
    match field.value {
        "directive without locations" => by_directive(alloc, case, tally),
        "document without definitions" => by_no_definitions(alloc, case, tally),
        "least integer" => by_integer(alloc, case, tally),
        "type by macro" => by_macro(alloc, case, tally),
        _ => by_text(alloc, case, field, tally),
    }
}

/// Judges what the row asks of `directive @d on`.
fn by_directive(alloc: Global, case: Case<'_>, tally: &mut Tally) -> Result<(), Problem> {
    let tree = DirectiveDefinition {
        description: None,
        name: Name::new_static_unchecked("d"),
        arguments: Vec::new(alloc),
        directives: DirectiveList(Vec::new(alloc)),
        repeatable: false,
        locations: Vec::new(alloc),
    };
    judge_tree(alloc, case, &tree, tree.is_writable(), tally)
}

/// Judges what the row asks of the document without definitions.
fn by_no_definitions(alloc: Global, case: Case<'_>, tally: &mut Tally) -> Result<(), Problem> {
    let tree = Document::new(alloc);
    judge_tree(alloc, case, &tree, tree.is_writable(), tally)
}

/// Judges what the row asks of the least integer of 32 bits.
fn by_integer(alloc: Global, case: Case<'_>, tally: &mut Tally) -> Result<(), Problem> {
    let tree = Value::Int(IntValue::from_i32(alloc, i32::MIN)?);
    judge_tree(alloc, case, &tree, tree.is_writable(), tally)
}

/// Judges what the row asks of a type that the macro makes.
fn by_macro(alloc: Global, case: Case<'_>, tally: &mut Tally) -> Result<(), Problem> {
    let tree = ty!(alloc, [[[Obj ] !]]!)?;
    judge_tree(alloc, case, &tree, tree.is_writable(), tally)
}

/// Judges what the row asks of its only input, which is read as a type or as a document.
fn by_text(
    alloc: Global,
    case: Case<'_>,
    field: Field<'_>,
    tally: &mut Tally,
) -> Result<(), Problem> {
    let [input] = case.given.inputs.as_slice() else {
        return Err(field.problem("this tree has one input"));
    };
    let text = text_of(case, input)?;
    if field.value == "type" {
        by_type(alloc, case, text, tally)
    } else {
        by_document(alloc, case, field, text, tally)
    }
}

/// Judges what the row asks of its input, read as a type.
fn by_type(alloc: Global, case: Case<'_>, text: &str, tally: &mut Tally) -> Result<(), Problem> {
    match parse_type(alloc, text, FileId(1), 500) {
        Ok(tree) => judge_tree(alloc, case, &tree, tree.is_writable(), tally),
        Err(_) => Err(case.row.head.problem("the input is not read")),
    }
}

/// Judges what the row asks of its input, read as a document.
fn by_document(
    alloc: Global,
    case: Case<'_>,
    field: Field<'_>,
    text: &str,
    tally: &mut Tally,
) -> Result<(), Problem> {
    match parse_document(alloc, text, FileId(1), 500) {
        Ok(document) => by_part(alloc, case, field, &document, tally),
        Err(_) => Err(case.row.head.problem("the input is not read")),
    }
}

/// Judges what the row asks of the document, or of its first definition.
fn by_part(
    alloc: Global,
    case: Case<'_>,
    field: Field<'_>,
    document: &Document,
    tally: &mut Tally,
) -> Result<(), Problem> {
    if field.value == "document" {
        return judge_tree(alloc, case, document, document.is_writable(), tally);
    }
    match document.definitions.first() {
        Some(Definition::OperationDefinition(node)) => {
            by_operation(alloc, case, field, node.content(), tally)
        }
        Some(Definition::FragmentDefinition(node)) if field.value == "fragment named on" => {
            by_fragment(alloc, case, node.content(), tally)
        }
        _ => Err(field.problem("there is no such tree")),
    }
}

/// Judges what the row asks of the operation, or of one that is made of it.
fn by_operation(
    alloc: Global,
    case: Case<'_>,
    field: Field<'_>,
    operation: &OperationDefinition,
    tally: &mut Tally,
) -> Result<(), Problem> {
    let mut tree = operation.clone()?;
    match field.value {
        "operation" => {}
        "operation with a directive" => push_directive(alloc, &mut tree.directives)?,
        "operation without selections" => tree.selection_set.clear(),
        _ => return Err(field.problem("there is no such tree")),
    }
    judge_tree(alloc, case, &tree, tree.is_writable(), tally)
}

/// Adds `@dir`, and makes the list of copies of its directives.
fn push_directive(alloc: Global, list: &mut DirectiveList) -> Result<(), AllocError> {
    let directive = Directive::new(alloc, Name::new_static_unchecked("dir"));
    list.push(Node::new(alloc, directive)?)?;
    *list = DirectiveList::try_from_iter(alloc, list.0.clone()?)?;
    Ok(())
}

/// Judges what the row asks of the fragment under the name `on`.
fn by_fragment(
    alloc: Global,
    case: Case<'_>,
    fragment: &FragmentDefinition,
    tally: &mut Tally,
) -> Result<(), Problem> {
    let mut tree = fragment.clone()?;
    tree.name = Name::new_static_unchecked("on");
    judge_tree(alloc, case, &tree, tree.is_writable(), tally)
}
