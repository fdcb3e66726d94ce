//! Selections that a set makes, with what is added to them, and copies of operations and fragments.

use graphql_documents::{
    ExecutableDocument, Field, FragmentSpread, InlineFragment, Selection, SelectionSet,
    SelectionSetExt,
};
use graphql_names::{Node, name};
use row_building::Schema;
use row_files::{Answer, Lines, Problem};
use std::alloc::{AllocError, Global};
use tree_directives::{Argument, Directive};

/// The selections of a set: a field with one of each part, the same with two of each, a spread and an inline fragment with
/// two of each, and one without a condition; and the field with one of each part.
#[derive(Clone, Copy)]
struct Parts<'a> {
    set: &'a SelectionSet,
    single: &'a Field,
    double: &'a Field,
    spread: &'a FragmentSpread,
    inline: &'a InlineFragment,
    bare: &'a InlineFragment,
    argument: &'a Node<Argument>,
    directive: &'a Node<Directive>,
    selection: &'a Selection,
}

/// The parts of a set that has these selections.
fn parts_of(set: &SelectionSet) -> Option<Parts<'_>> {
    let single = set.selections.get(0)?.as_field()?.content();
    Some(Parts {
        set,
        single,
        double: set.selections.get(1)?.as_field()?.content(),
        spread: set.selections.get(2)?.as_fragment_spread()?.content(),
        inline: set.selections.get(3)?.as_inline_fragment()?.content(),
        bare: set.selections.get(4)?.as_inline_fragment()?.content(),
        argument: single.arguments.first()?,
        directive: single.directives.0.first()?,
        selection: single.selection_set.selections.first()?,
    })
}

/// Adds which selections of each operation's set its set makes, and whether copies of operations and fragments equal the
/// originals.
pub(crate) fn push_made(
    alloc: Global,
    schema: &Schema,
    document: &ExecutableDocument,
    answer: &mut Answer,
) -> Result<(), Problem> {
    for operation in document.operations.iter() {
        let operation = operation.content();
        if let Some(parts) = parts_of(&operation.selection_set) {
            push_selections(alloc, schema, parts, &mut answer.text)?;
        }
        push_same("an operation", operation, operation, &mut answer.text);
    }
    for fragment in document.fragments.values() {
        let fragment = fragment.content();
        push_same("a fragment", fragment, fragment, &mut answer.text);
    }
    answer.status.put("0");
    Ok(())
}

/// Adds a line for each selection that the set makes, and whether its copy equals it.
fn push_selections(
    alloc: Global,
    schema: &Schema,
    parts: Parts<'_>,
    lines: &mut Lines,
) -> Result<(), Problem> {
    match parts.set.new_field(alloc, schema, name!("a")) {
        Ok(field) => push_same("a field", &doubled(parts, field)?, parts.double, lines),
        Err(_) => lines.put("no field\n"),
    }
    let spread = parts.set.new_fragment_spread(alloc, name!("F"));
    push_same("a spread", &marked(parts, spread)?, parts.spread, lines);
    let inline = parts.set.new_inline_fragment(alloc, Some(name!("Query")))?;
    push_same(
        "an inline fragment",
        &filled(parts, inline)?,
        parts.inline,
        lines,
    );
    let bare = parts.set.new_inline_fragment(alloc, None)?;
    push_same(
        "one without a condition",
        &extended(parts, bare)?,
        parts.bare,
        lines,
    );
    Ok(())
}

/// Adds what it is, if it equals what is wanted, and whether its copy equals it.
fn push_same<T: Clone + PartialEq>(what: &str, made: &T, wanted: &T, lines: &mut Lines) {
    if *made == *wanted {
        lines.put(what);
    }
    match made.clone() {
        Ok(copy) if copy == *made => lines.put(", copied\n"),
        _ => lines.put("\n"),
    }
}

/// The field as `z`, with the argument `x` and each part of the single one, one by one and all together.
fn doubled(parts: Parts<'_>, field: Field) -> Result<Field, AllocError> {
    let value = parts.argument.content().value.clone()?;
    let made = field
        .with_opt_alias(Some(name!("z")))
        .with_argument(name!("x"), value)?;
    let made = made.with_arguments(parts.single.arguments.clone()?)?;
    let made = made.with_directive(parts.directive.clone()?)?;
    let made = made.with_directives(parts.single.directives.0.clone()?)?;
    let made = made.with_selection(parts.selection.clone()?)?;
    made.with_selections(parts.single.selection_set.selections.clone()?)
}

/// The spread with the directive, and with all of the single field's.
fn marked(parts: Parts<'_>, spread: FragmentSpread) -> Result<FragmentSpread, AllocError> {
    let made = spread.with_directive(parts.directive.clone()?)?;
    made.with_directives(parts.single.directives.0.clone()?)
}

/// The inline fragment with the directive and the selection, and with all of the single field's.
fn filled(parts: Parts<'_>, inline: InlineFragment) -> Result<InlineFragment, AllocError> {
    let made = inline.with_directive(parts.directive.clone()?)?;
    let made = made.with_directives(parts.single.directives.0.clone()?)?;
    let made = made.with_selection(parts.selection.clone()?)?;
    made.with_selections(parts.single.selection_set.selections.clone()?)
}

/// The inline fragment with the selections of the single field.
fn extended(parts: Parts<'_>, inline: InlineFragment) -> Result<InlineFragment, AllocError> {
    let mut made = inline;
    made.selection_set
        .extend(parts.single.selection_set.selections.clone()?)?;
    Ok(made)
}
