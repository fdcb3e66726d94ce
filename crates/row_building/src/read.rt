//! Rows of texts that are read by themselves.

use graphql_names::FileId;
use graphql_read::{
    NextToken, ReadFault, SyntaxFaultKind, Token, next_token, parse_document, parse_selections,
    parse_type,
};
use row_files::{Answer, Case, Lines, Problem, Tally, Way, compare, text_of};
use std::alloc::Global;
use tree_definitions::{Definition, Document};
use tree_directives::{Directive, DirectiveDefinition};
use tree_literals::Tree;
use tree_operations::Selection;

/// Judges the row: each of its inputs, under each of its limits.
pub(crate) fn by_read(alloc: Global, case: Case<'_>, tally: &mut Tally) -> Result<(), Problem> {
    for nesting in &case.given.limits {
        for input in &case.given.inputs {
            by_input(alloc, case, input, *nesting, tally)?;
        }
    }
    Ok(())
}

/// Judges the answer to an input, which must be UTF-8. The output that is wanted may be the input unchanged.
fn by_input(
    alloc: Global,
    case: Case<'_>,
    input: &[u8],
    nesting: usize,
    tally: &mut Tally,
) -> Result<(), Problem> {
    let text = text_of(case, input)?;
    push_answer(alloc, case.call, text, nesting, &mut tally.answer);
    let (status, out) = if case.status == "0 as it stands" {
        ("0", input)
    } else {
        (case.status, case.out)
    };
    let wanted = Case {
        status,
        out,
        ..case
    };
    compare(wanted, Way::whole(case.call, input, nesting), tally)
}

/// Adds the answer of the call.
fn push_answer(alloc: Global, call: &str, text: &str, nesting: usize, answer: &mut Answer) {
    match call {
        "parse_type" => push_type(alloc, text, nesting, answer),
        "parse_selections" | "response_names" => {
            push_selections(alloc, call, text, nesting, answer)
        }
        "next_token" => push_tokens(text, answer),
        _ => push_document(alloc, call, text, nesting, answer),
    }
}

/// Adds what a document that is read prints on one line, or what its directives have.
fn push_document(alloc: Global, call: &str, text: &str, nesting: usize, answer: &mut Answer) {
    match parse_document(alloc, text, FileId(1), nesting) {
        Ok(document) if call == "argument_by_name" => push_arguments(&document, answer),
        Ok(document) => answer.show("0", &document.serialize().no_indent()),
        Err(fault) => push_fault(fault, &mut answer.status),
    }
}

/// Adds what a type that is read prints.
fn push_type(alloc: Global, text: &str, nesting: usize, answer: &mut Answer) {
    match parse_type(alloc, text, FileId(1), nesting) {
        Ok(ty) => answer.show("0", &ty),
        Err(fault) => push_fault(fault, &mut answer.status),
    }
}

/// Adds what each selection that is read prints on a line of its own, or the response name of each field.
fn push_selections(alloc: Global, call: &str, text: &str, nesting: usize, answer: &mut Answer) {
    match parse_selections(alloc, text, FileId(1), nesting) {
        Ok(selections) if call == "response_names" => push_response_names(&selections, answer),
        Ok(selections) => push_lines(&selections, answer),
        Err(fault) => push_fault(fault, &mut answer.status),
    }
}

/// Adds each selection on a line of its own.
fn push_lines(selections: &[Selection], answer: &mut Answer) {
    for selection in selections {
        let shown = selection.serialize().no_indent();
        answer.text.show_between("", &shown, "\n");
    }
    answer.status.put("0");
}

/// Adds the response name of each field on a line of its own.
fn push_response_names(selections: &[Selection], answer: &mut Answer) {
    for selection in selections {
        if let Some(field) = selection.as_field() {
            let name = field.content().response_name();
            answer.text.show_between("", name, "\n");
        }
    }
    answer.status.put("0");
}

/// Adds what each directive of the document's operations has for `a`, on a line of its own; the document's first
/// definition may be that of a directive.
fn push_arguments(document: &Document, answer: &mut Answer) {
    let definition = match document.definitions.first() {
        Some(Definition::DirectiveDefinition(node)) => Some(node.content()),
        _ => None,
    };
    for given in &document.definitions {
        if let Definition::OperationDefinition(node) = given {
            for directive in &node.content().directives.0 {
                push_argument(directive.content(), definition, &mut answer.text);
            }
        }
    }
    answer.status.put("0");
}

/// Adds the value that the directive has for `a`, or why it has none.
fn push_argument(
    directive: &Directive,
    definition: Option<&DirectiveDefinition>,
    lines: &mut Lines,
) {
    match directive.argument_by_name("a", definition) {
        Ok(None) => lines.put("an implicit null\n"),
        Ok(Some(value)) => lines.show_between("", value, "\n"),
        Err(error) => lines.show_between("", &error, "\n"),
    }
}

/// Adds a fault and its place.
fn push_fault(fault: ReadFault, status: &mut Lines) {
    match fault {
        ReadFault::Syntax(fault) => push_place(kind_words(fault.kind), fault.offset, status),
        ReadFault::Nesting { offset } => push_place("1 nesting ", offset, status),
        ReadFault::Memory => status.put("4 out of memory"),
    }
}

/// Adds these words and a place.
fn push_place(words: &str, offset: usize, status: &mut Lines) {
    status.show_between(words, &offset, "");
}

/// A fault of the tokens in words.
fn kind_words(kind: SyntaxFaultKind) -> &'static str {
    match kind {
        SyntaxFaultKind::NoToken => "1 no token ",
        SyntaxFaultKind::Unexpected => "1 unexpected ",
        SyntaxFaultKind::End => "1 end ",
    }
}

/// Adds the offset, the kind and the text of each token on a line of its own, up to the end or to where no token starts,
/// and the place of that.
fn push_tokens(text: &str, answer: &mut Answer) {
    let mut at = 0;
    for _ in 0..=text.len() {
        match token_at(text, at) {
            NextToken::Token(token) => {
                push_token(token, &mut answer.text);
                at = token.offset.saturating_add(token.text.len());
            }
            NextToken::End => return answer.status.put("0"),
            NextToken::NoToken(offset) => {
                return push_place("1 no token ", offset, &mut answer.status);
            }
        }
    }
}

/// Adds the offset, the kind and the text of a token.
fn push_token(token: Token<'_>, lines: &mut Lines) {
    lines.show_between("", &token.offset, " ");
    lines.debug(&token.kind);
    lines.show_between(" ", &token.text, "\n");
}

/// The next token from this offset on.
fn token_at(text: &str, at: usize) -> NextToken<'_> {
    if text.is_char_boundary(at) {
        next_token(text, at)
    } else {
        NextToken::NoToken(at)
    }
}
