//! What is at the place where a text is not read, and what can be there.

use crate::brackets::{Brackets, brackets_of};
use crate::taken::{forms_taken, is_taken};
use crate::text_names::first_token;
use graphql_names::SourceSpan;
use std::alloc::{AllocError, Global};

/// What is often there where no token begins, and words for it.
const USUAL: &[(&str, &str)] = &[
    ("'", "a string is written in double quotes"),
    ("//", "a comment begins with `#`"),
    ("/*", "a comment begins with `#`, on each of its lines"),
    (";", "nothing is needed between definitions or fields"),
    (".", "a spread is written with three points, `...`"),
    ("`", "a string is written in double quotes"),
    ("\"\"\"", "the block string does not end"),
    ("\u{0}", "U+0000: the text may be UTF-16: save it as UTF-8"),
    ("\u{a0}", "U+00A0 (no-break space): type an ordinary space"),
    (
        "\u{202f}",
        "U+202F (narrow no-break space): type an ordinary space",
    ),
    ("\u{2003}", "U+2003 (em space): type an ordinary space"),
    ("\u{2009}", "U+2009 (thin space): type an ordinary space"),
    (
        "\u{3000}",
        "U+3000 (ideographic space): type an ordinary space",
    ),
    ("\u{ad}", "U+00AD (soft hyphen): delete it"),
    ("\u{200b}", "U+200B (zero width space): delete it"),
    ("\u{200c}", "U+200C (zero width non-joiner): delete it"),
    ("\u{200d}", "U+200D (zero width joiner): delete it"),
    ("\u{2060}", "U+2060 (word joiner): delete it"),
    (
        "\u{2028}",
        "U+2028 (line separator): type an ordinary end of line",
    ),
    (
        "\u{2029}",
        "U+2029 (paragraph separator): type an ordinary end of line",
    ),
    (
        "\u{201c}",
        "U+201C (left double quotation mark): a string is written in `\"`",
    ),
    (
        "\u{201d}",
        "U+201D (right double quotation mark): a string is written in `\"`",
    ),
    (
        "\u{201e}",
        "U+201E (low double quotation mark): a string is written in `\"`",
    ),
    (
        "\u{2018}",
        "U+2018 (left single quotation mark): a string is written in `\"`",
    ),
    (
        "\u{2019}",
        "U+2019 (right single quotation mark): a string is written in `\"`",
    ),
    ("\u{2026}", "U+2026 (horizontal ellipsis): type `...`"),
    ("\u{ff01}", "U+FF01 (full-width `!`): type `!`"),
    ("\u{ff04}", "U+FF04 (full-width `$`): type `$`"),
    ("\u{ff08}", "U+FF08 (full-width `(`): type `(`"),
    ("\u{ff09}", "U+FF09 (full-width `)`): type `)`"),
    ("\u{ff0c}", "U+FF0C (full-width `,`): type `,`"),
    ("\u{ff1a}", "U+FF1A (full-width `:`): type `:`"),
    ("\u{ff1d}", "U+FF1D (full-width `=`): type `=`"),
    ("\u{ff20}", "U+FF20 (full-width `@`): type `@`"),
    ("\u{ff5b}", "U+FF5B (full-width `{`): type `{`"),
    ("\u{ff5d}", "U+FF5D (full-width `}`): type `}`"),
    (
        "\u{fffd}",
        "U+FFFD (replacement character): the text was not read as the encoding that it has",
    ),
];

/// How the escapes of the first of two surrogates begin.
const SURROGATES: &[&str] = &[
    "\\uD8", "\\uD9", "\\uDA", "\\uDB", "\\ud8", "\\ud9", "\\uda", "\\udb",
];

/// What is at the place, or what to do with it, and, where that is wanted, what the grammar takes there.
pub(crate) fn syntax_hint(
    alloc: Global,
    text: &str,
    place: SourceSpan,
    tells_forms: bool,
) -> Result<Option<String>, AllocError> {
    let (head, rest) = text.split_at_checked(place.offset).unwrap_or((text, ""));
    let Brackets {
        open,
        ended,
        most,
        ..
    } = brackets_of(alloc, head)?;
    if let Some(words) = usual(head, rest, open.is_some()) {
        return Ok(Some(String::from_str(alloc, words)?));
    }
    let given = match first_token(rest) {
        Some((token, _)) => token.text,
        None => "",
    };
    let what = match rest.chars().next() {
        Some(_) if !given.is_empty() => format!(in alloc; "`{given}` is here")?,
        Some(character) if character.is_ascii_graphic() => format!(in alloc;
            "`{character}` is here"
        )?,
        Some(character) => format!(in alloc; "U+{:04X} is here", character as u32)?,
        None => String::from_str(alloc, "the text ends here")?,
    };
    if !tells_forms {
        return Ok(Some(what));
    }
    // a definition ends where all brackets are closed, so what is before that says nothing of what comes next
    let begun = head.get(ended..).unwrap_or("");
    let kind = match given {
        "true" | "false" | "null" => "an enum value",
        "on" => "a fragment",
        _ => "",
    };
    if !kind.is_empty() && is_taken(alloc, begun, "a", place.file_id, most)? {
        return Ok(Some(format!(in alloc; "{kind} cannot be `{given}`")?));
    }
    let forms = forms_taken(alloc, begun, place.file_id, most)?;
    Ok(Some(format!(in alloc; "{what}{forms}")?))
}

/// Words for what is often there, between what is before the place and the rest.
fn usual(head: &str, rest: &str, is_inside: bool) -> Option<&'static str> {
    let is_first = first_token(head).is_none();
    if rest.is_empty() && is_first {
        if head.trim().is_empty() {
            return Some("the text is empty: write at least one definition");
        }
        return Some("the text has comments alone: write at least one definition");
    }
    if rest.starts_with("${") || rest.starts_with('{') && head.ends_with('$') {
        return Some("a template of JavaScript: check the text that it makes");
    }
    if rest.starts_with('}') && !is_inside {
        return Some("one `}` too many");
    }
    if rest.starts_with("import ") && is_first {
        return Some(
            "there is no `import`: write all in one text, or pass the other files beside it",
        );
    }
    if rest.starts_with("\"") && head.trim() == "{" {
        if rest.starts_with("\"data\"") || rest.starts_with("\"__schema\"") {
            return Some(
                "an introspection result, not a schema text: graphql-check takes it as `--schema x.json`",
            );
        }
        return Some("this is JSON: a document is the text under its key `query`");
    }
    if first_token(rest).is_some() {
        return None;
    }
    for (prefix, words) in USUAL {
        if rest.starts_with(*prefix) {
            return Some(*words);
        }
    }
    wrong_literal(rest)
}

/// Words for a number or a string that is no token.
fn wrong_literal(rest: &str) -> Option<&'static str> {
    if let Some('0'..='9' | '-') = rest.chars().next() {
        return Some("a number is written as `7`, `-7`, `0.7` or `7e3`, and no letter follows it");
    }
    let string = rest.strip_prefix('"')?;
    let (mut is_escaped, mut has_escape) = (false, false);
    for (end, character) in string.char_indices() {
        if character == '\n' || character == '\r' {
            break;
        }
        if is_escaped {
            is_escaped = false;
        } else if character == '\\' {
            is_escaped = true;
            has_escape = true;
        } else if character == '"' {
            let inside = string.get(..end).unwrap_or("");
            for surrogate in SURROGATES {
                if inside.contains(*surrogate) {
                    return Some("a surrogate is not read: write the character itself");
                }
            }
            return Some(if has_escape {
                "an escape in it is not one of GraphQL"
            } else {
                "a control character in it is to be written as an escape, such as `\\u0007`"
            });
        }
    }
    Some("the string does not end in its line")
}
