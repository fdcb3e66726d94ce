//! What the grammar takes at a place, as the reader of documents decides it.

ghost use Rattle.std.specs.Prelude.{◌≡◌, true, IfOk};
ghost use Rattle.graphql_report.specs.Taken.{IsTaken};

use crate::text_names::first_token;
use graphql_names::FileId;
use graphql_read::{ReadFault, SyntaxFault, SyntaxFaultKind, parse_document};
use std::alloc::{AllocError, Global};

/// How many forms are named.
const MOST: usize = 5;
/// Forms that may be taken: a token, words for it, and the token of a form that has it among others.
const FORMS: &[(&str, &str, &str)] = &[
    ("}", "`}`", ""),
    (")", "`)`", ""),
    ("]", "`]`", ""),
    (":", "`:`", ""),
    ("0", "a value", ""),
    ("a", "a name", "0"),
    ("fragment", "a definition", "a"),
    ("query", "`query`", "fragment"),
    ("schema", "`schema`", "fragment"),
    ("type", "`type`", "fragment"),
    ("on", "`on`", "a"),
    ("{", "`{`", "0"),
    ("(", "`(`", ""),
    ("[", "`[`", "0"),
    ("=", "`=`", ""),
    ("|", "`|`", ""),
    ("&", "`&`", ""),
    ("@", "`@`", ""),
    ("$", "`$`", "0"),
    ("...", "`...`", ""),
    ("!", "`!`", ""),
    ("implements", "`implements`", "a"),
    ("repeatable", "`repeatable`", "a"),
    ("FIELD", "a directive location", "a"),
];

/// What the grammar takes after this beginning of a document, such as ", where `:` or `(` can be": at most five forms. At most
/// so many brackets are open in it at once.
pub(crate) fn forms_taken(
    alloc: Global,
    begun: &str,
    file: FileId,
    nesting: usize,
) -> Result<String, AllocError> {
    if first_token(begun).is_none() {
        return String::from_str(alloc, ", where a definition can be");
    }
    let (mut is_value, mut is_name, mut is_definition) = (false, false, false);
    let mut forms: Vec<&'static str> = Vec::new(alloc);
    for (form, words, whole) in FORMS {
        let is_part = match *whole {
            "0" => is_value,
            "a" => is_value || is_name,
            "fragment" => is_value || is_name || is_definition,
            _ => false,
        };
        if forms.len() < MOST && !is_part && is_taken(alloc, begun, form, file, nesting)? {
            is_value = is_value || *form == "0";
            is_name = is_name || *form == "a";
            is_definition = is_definition || *form == "fragment";
            forms.push(*words)?;
        }
    }
    let mut list = String::new(alloc);
    for (index, words) in forms.iter().enumerate() {
        let joint = match (index, forms.len().saturating_sub(index)) {
            (0, _) => ", where ",
            (_, 1) => " or ",
            _ => ", ",
        };
        list.push_str(joint)?;
        list.push_str(words)?;
    }
    list.push_str(if forms.is_empty() { "" } else { " can be" })?;
    Ok(list)
}

/// Whether the grammar takes this token after the beginning of a document: some document goes on so.
#[tactic(auto, using(crate::proofs::Taking::whole, crate::proofs::Taking::early, crate::proofs::Taking::opens))]
pub(crate) fn is_taken(
    alloc: Global,
    begun: &str,
    form: &str,
    file: FileId,
    nesting: usize,
) -> Result<bool, AllocError>
    ensures { IfOk result (λ taken. taken ≡ true → IsTaken file nesting begun.now form.now) }
{
    // a line of its own: the beginning may end in a comment or a name
    let text = format!(in alloc; "{begun}\n{form}")?;
    match parse_document(alloc, &text, file, nesting) {
        Ok(_) => Ok(true),
        Err(
            ReadFault::Syntax(
                SyntaxFault {
                    kind: SyntaxFaultKind::End,
                    ..
                },
            ),
        ) => Ok(true),
        Err(ReadFault::Syntax(_)) => Ok(false),
        Err(ReadFault::Nesting { offset }) => Ok(begun.len() < offset),
        Err(ReadFault::Memory) => Err(AllocError),
    }
}
