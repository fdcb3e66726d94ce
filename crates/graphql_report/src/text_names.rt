//! The names that texts have, and what they name.

use graphql_names::FileId;
use read_tokens::{NextToken, Token, TokenKind, next_token};
use std::alloc::AllocError;

/// What a name of a text names.
#[derive(Clone, Copy, PartialEq)]
pub(crate) enum NameKind {
    Variable,
    Fragment,
    Operation,
    Type,
    /// A type, or the schema, that is extended.
    Extended,
    Directive,
    Schema,
    /// A field, an enum value, a member of a union, or an interface that a type implements.
    Member,
}

/// A name of a text.
#[derive(Clone, Copy)]
pub(crate) struct TextName<'a> {
    pub(crate) kind: NameKind,
    pub(crate) name: &'a str,
    /// The type that has a member; of other names the word before them.
    pub(crate) of: &'a str,
    pub(crate) file: FileId,
    /// How many bytes of the text are before it.
    pub(crate) start: usize,
}

/// How many brackets are open, and whether the outermost of them is a brace.
#[derive(Clone, Copy)]
struct Depth {
    open: usize,
    is_in_braces: bool,
}

impl Depth {
    /// What it is after a token, if that is a bracket.
    fn after(self, token: &str) -> Option<Depth> {
        let Depth { open, is_in_braces } = self;
        match token {
            "{" | "(" | "[" => Some(Depth {
                open: open.saturating_add(1),
                is_in_braces: if open == 0 {
                    token == "{"
                } else {
                    is_in_braces
                },
            }),
            "}" | ")" | "]" => Some(Depth {
                open: open.saturating_sub(1),
                is_in_braces,
            }),
            _ => None,
        }
    }
}

/// Adds the names of a text, in order, up to where no token is read.
pub(crate) fn push_names<'a>(
    names: &mut Vec<TextName<'a>>,
    file: FileId,
    text: &'a str,
) -> Result<(), AllocError> {
    let (mut earlier, mut before, mut owner, mut rest) = ("", "", "", text);
    let mut depth = Depth {
        open: 0,
        is_in_braces: false,
    };
    for _ in 0..text.len() {
        let Some((token, following)) = first_token(rest) else {
            break;
        };
        let name = token.text;
        if let Some(next) = depth.after(name) {
            depth = next;
        } else if matches!(token.kind, TokenKind::Name)
            && let Some((kind, of, next)) = named(earlier, before, owner, name, depth)
        {
            names.push(TextName {
                kind,
                name,
                of,
                file,
                start: text
                    .len()
                    .saturating_sub(following.len().saturating_add(name.len())),
            })?;
            owner = next;
        }
        earlier = before;
        before = name;
        rest = following;
    }
    Ok(())
}

/// What the name names, the word that belongs to it, and the type that is defined from then on: from the two tokens before it, the
/// type that was defined so far and how many brackets are open. None if it is a keyword or is used.
fn named<'a>(
    earlier: &str,
    before: &'a str,
    owner: &'a str,
    name: &'a str,
    depth: Depth,
) -> Option<(NameKind, &'a str, &'a str)> {
    let kind = match (depth.open, before) {
        (_, "$") => NameKind::Variable,
        (0, "fragment") => NameKind::Fragment,
        (0, "query" | "mutation" | "subscription") => NameKind::Operation,
        (0, "type" | "interface" | "union" | "enum" | "input" | "scalar") if earlier == "extend" =>
            NameKind::Extended,
        (0, "type" | "interface" | "union" | "enum" | "input" | "scalar") => NameKind::Type,
        (0, "@") if earlier == "directive" => NameKind::Directive,
        (0, "extend") if name == "schema" => NameKind::Extended,
        (0, "=" | "|" | "&" | "implements") => return Some((NameKind::Member, owner, owner)),
        (0, _) if name == "schema" => NameKind::Schema,
        (1, ":" | "@" | "=") => return None,
        (1, _) if depth.is_in_braces => return Some((NameKind::Member, owner, owner)),
        _ => return None,
    };
    let next = match kind {
        NameKind::Type | NameKind::Extended => name,
        NameKind::Variable => owner,
        _ => "",
    };
    Some((kind, before, next))
}

/// The first token of a text, and what comes after it.
pub(crate) fn first_token(text: &str) -> Option<(Token<'_>, &str)> {
    match next_token(text, 0) {
        NextToken::Token(token) => {
            let end = token.offset.saturating_add(token.text.len());
            Some((token, text.get(end..)?))
        }
        NextToken::End | NextToken::NoToken(_) => None,
    }
}
