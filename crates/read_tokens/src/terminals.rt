//! Which terminal symbol a token is (appendix B).
ghost use Rattle.std.specs.Prelude.{◌≡◌, map};
ghost use Rattle.read_tokens.specs.Terminals as spec;
ghost use Rattle.read_tokens.specs.Words as first_byte;

use crate::terminal::Terminal;
use crate::token::TokenKind;

// The keywords (appendix B), and the names of directive locations (section 3.13), by their first byte.

const KEYWORDS_D: &[(&str, Terminal)] = &[("directive", Terminal::Directive)];

const KEYWORDS_E: &[(&str, Terminal)] = &[("extend", Terminal::Extend), ("enum", Terminal::Enum)];

const KEYWORDS_F: &[(&str, Terminal)] = &[
    ("fragment", Terminal::Fragment),
    ("false", Terminal::False),
];

const KEYWORDS_I: &[(&str, Terminal)] = &[
    ("interface", Terminal::Interface),
    ("input", Terminal::Input),
    ("implements", Terminal::Implements),
];

const KEYWORDS_M: &[(&str, Terminal)] = &[("mutation", Terminal::Mutation)];

const KEYWORDS_N: &[(&str, Terminal)] = &[("null", Terminal::Null)];

const KEYWORDS_O: &[(&str, Terminal)] = &[("on", Terminal::On)];

const KEYWORDS_Q: &[(&str, Terminal)] = &[("query", Terminal::Query)];

const KEYWORDS_R: &[(&str, Terminal)] = &[("repeatable", Terminal::Repeatable)];

const KEYWORDS_S: &[(&str, Terminal)] = &[
    ("subscription", Terminal::Subscription),
    ("schema", Terminal::Schema),
    ("scalar", Terminal::Scalar),
];

const KEYWORDS_T: &[(&str, Terminal)] = &[("true", Terminal::True), ("type", Terminal::Type)];

const KEYWORDS_U: &[(&str, Terminal)] = &[("union", Terminal::Union)];

const LOCATIONS_A: &[(&str, Terminal)] = &[("ARGUMENT_DEFINITION", Terminal::Location)];

const LOCATIONS_D: &[(&str, Terminal)] = &[("DIRECTIVE_DEFINITION", Terminal::Location)];

const LOCATIONS_E: &[(&str, Terminal)] = &[
    ("ENUM", Terminal::Location),
    ("ENUM_VALUE", Terminal::Location),
];

const LOCATIONS_F: &[(&str, Terminal)] = &[
    ("FIELD", Terminal::Location),
    ("FRAGMENT_DEFINITION", Terminal::Location),
    ("FRAGMENT_SPREAD", Terminal::Location),
    ("FIELD_DEFINITION", Terminal::Location),
];

const LOCATIONS_I: &[(&str, Terminal)] = &[
    ("INLINE_FRAGMENT", Terminal::Location),
    ("INTERFACE", Terminal::Location),
    ("INPUT_OBJECT", Terminal::Location),
    ("INPUT_FIELD_DEFINITION", Terminal::Location),
];

const LOCATIONS_M: &[(&str, Terminal)] = &[("MUTATION", Terminal::Location)];

const LOCATIONS_O: &[(&str, Terminal)] = &[("OBJECT", Terminal::Location)];

const LOCATIONS_Q: &[(&str, Terminal)] = &[("QUERY", Terminal::Location)];

const LOCATIONS_S: &[(&str, Terminal)] = &[
    ("SUBSCRIPTION", Terminal::Location),
    ("SCHEMA", Terminal::Location),
    ("SCALAR", Terminal::Location),
];

const LOCATIONS_U: &[(&str, Terminal)] = &[("UNION", Terminal::Location)];

const LOCATIONS_V: &[(&str, Terminal)] = &[("VARIABLE_DEFINITION", Terminal::Location)];

/// The symbol of the first word of the table that the text spells; `Name` if it spells none.
#[tactic(auto, using(crate::proofs::Words::word_here, crate::proofs::Words::word_after))]
fn find_word(table: &[(&str, Terminal)], text: &[u8]) -> Terminal
    ensures { result ≡ spec.spelled (map (λ w. (w.0.now, w.1)) table.now) text.now }
{
    for (word, terminal) in table {
        if word.as_bytes() == text {
            return *terminal;
        }
    }
    Terminal::Name
}

/// The keywords, and the names of directive locations, that begin with a byte.
#[tactic(auto, unfolding(crate::specs::Terminals::words))]
fn words_with(first: u8) -> &'static [(&'static str, Terminal)]
    ensures { map (λ w. (w.0.now, w.1)) result.now ≡ first_byte.starting first spec.words }
{
    match first {
        b'd' => KEYWORDS_D,
        b'e' => KEYWORDS_E,
        b'f' => KEYWORDS_F,
        b'i' => KEYWORDS_I,
        b'm' => KEYWORDS_M,
        b'n' => KEYWORDS_N,
        b'o' => KEYWORDS_O,
        b'q' => KEYWORDS_Q,
        b'r' => KEYWORDS_R,
        b's' => KEYWORDS_S,
        b't' => KEYWORDS_T,
        b'u' => KEYWORDS_U,
        b'A' => LOCATIONS_A,
        b'D' => LOCATIONS_D,
        b'E' => LOCATIONS_E,
        b'F' => LOCATIONS_F,
        b'I' => LOCATIONS_I,
        b'M' => LOCATIONS_M,
        b'O' => LOCATIONS_O,
        b'Q' => LOCATIONS_Q,
        b'S' => LOCATIONS_S,
        b'U' => LOCATIONS_U,
        b'V' => LOCATIONS_V,
        _ => &[],
    }
}

/// The symbol of the keyword or location that a name is; `Name` if it is none.
fn spelled(text: &[u8]) -> Terminal
    ensures { result ≡ spec.spelled spec.words text.now }
{
    match text {
        [] => Terminal::Name,
        [first, ..] => find_word(words_with(*first), text),
    }
}

/// The terminal symbol of a token of this kind and text.
pub fn terminal_of(kind: TokenKind, text: &[u8]) -> Terminal
    ensures { result ≡ spec.terminal_of kind text.now }
{
    match kind {
        TokenKind::Name => spelled(text),
        TokenKind::Bang => Terminal::Bang,
        TokenKind::Dollar => Terminal::Dollar,
        TokenKind::Ampersand => Terminal::Ampersand,
        TokenKind::OpenParen => Terminal::OpenParen,
        TokenKind::CloseParen => Terminal::CloseParen,
        TokenKind::Spread => Terminal::Spread,
        TokenKind::Colon => Terminal::Colon,
        TokenKind::Equals => Terminal::Equals,
        TokenKind::At => Terminal::At,
        TokenKind::OpenBracket => Terminal::OpenBracket,
        TokenKind::CloseBracket => Terminal::CloseBracket,
        TokenKind::OpenBrace => Terminal::OpenBrace,
        TokenKind::Pipe => Terminal::Pipe,
        TokenKind::CloseBrace => Terminal::CloseBrace,
        TokenKind::Int => Terminal::Int,
        TokenKind::Float => Terminal::Float,
        TokenKind::String => Terminal::String,
        TokenKind::BlockString => Terminal::BlockString,
    }
}
