//! Which piece begins a text (section 2.1).
ghost use Rattle.std.specs.Prelude.{◌≡◌, ◌≤◌, ◌<◌, ◌+◌, length, drop, IfSome, ◌∷◌, [], true};
ghost use Rattle.std.specs.List.{prefix_len};
ghost use Rattle.read_tokens.specs.Bytes.{begins_with, run_len};
ghost use Rattle.read_tokens.specs.Tokens as spec;

use crate::name::{is_name_start, name_len};
use crate::number::number_at;
use crate::search::len_before_two;
use crate::string_token::{block_len, quoted_len};
use crate::token::TokenKind;

/// The kind of a punctuator of one byte (section 2.1.8).
fn punctuator(byte: u8) -> Option<TokenKind>
    ensures { result ≡ spec.punctuator byte }
{
    match byte {
        b'!' => Some(TokenKind::Bang),
        b'$' => Some(TokenKind::Dollar),
        b'&' => Some(TokenKind::Ampersand),
        b'(' => Some(TokenKind::OpenParen),
        b')' => Some(TokenKind::CloseParen),
        b':' => Some(TokenKind::Colon),
        b'=' => Some(TokenKind::Equals),
        b'@' => Some(TokenKind::At),
        b'[' => Some(TokenKind::OpenBracket),
        b']' => Some(TokenKind::CloseBracket),
        b'{' => Some(TokenKind::OpenBrace),
        b'|' => Some(TokenKind::Pipe),
        b'}' => Some(TokenKind::CloseBrace),
        _ => None,
    }
}

/// The string that begins the bytes, and its length.
#[tactic(auto, unfolding(crate::specs::Tokens::string_at))]
fn string_at(bytes: &[u8]) -> Option<(TokenKind, usize)>
    requires { begins_with (34 ∷ []) bytes.now ≡ true }
    ensures value { result ≡ spec.string_at bytes.now }
    ensures within { IfSome result (λ t. (0 < t.1) × (t.1 ≤ length bytes.now)) }
{
    match bytes {
        [b'"', b'"', b'"', ..] => {
            let length = block_len(bytes)?;
            Some((TokenKind::BlockString, length))
        }
        _ => {
            let length = quoted_len(bytes)?;
            Some((TokenKind::String, length))
        }
    }
}

/// The token that begins the bytes, and its length.
#[tactic(auto, unfolding(crate::specs::Tokens::token_at))]
pub(crate) fn token_at(bytes: &[u8]) -> Option<(TokenKind, usize)>
    ensures value { result ≡ spec.token_at bytes.now }
    ensures within { IfSome result (λ t. (0 < t.1) × (t.1 ≤ length bytes.now)) }
{
    match bytes {
        [] => None,
        [first, ..] if is_name_start(*first) => Some((TokenKind::Name, name_len(bytes))),
        [b'-' | b'0'..=b'9', ..] => number_at(bytes),
        [b'"', ..] => string_at(bytes),
        [b'.', b'.', b'.', ..] => Some((TokenKind::Spread, 3)),
        [b'.', ..] => None,
        [first, ..] => {
            let kind = punctuator(*first)?;
            Some((kind, 1))
        }
    }
}

/// How many bytes there are up to the end of the line (section 2.1.3).
pub(crate) fn line_len(bytes: &[u8]) -> usize
    ensures count { result ≡ prefix_len spec.is_in_line bytes.now }
    ensures within { result ≤ length bytes.now }
{
    len_before_two(b'\n', b'\r', bytes)
}

/// How many bytes the ignored piece takes that begins the bytes (section 2.1.7).
#[tactic(auto, unfolding(crate::specs::Tokens::ignored_at))]
fn ignored_at(bytes: &[u8]) -> Option<usize>
    ensures value { result ≡ spec.ignored_at bytes.now }
    ensures within { IfSome result (λ n. (0 < n) × (n ≤ length bytes.now)) }
{
    match bytes {
        [b'\t' | b' ' | b'\n' | b',', ..] => Some(1),
        [b'\r', b'\n', ..] => Some(2),
        [b'\r', ..] => Some(1),
        [b'#', ..] => Some(line_len(bytes)),
        // The byte order mark: the grammar ignores it anywhere, not only at the start.
        [0xEF, 0xBB, 0xBF, ..] => Some(3),
        _ => None,
    }
}

/// Whether the byte is ignored by itself: a tab, a space, a line feed or a comma.
fn is_ignored_byte(byte: u8) -> bool
    ensures { result ≡ spec.is_ignored_byte byte }
{
    byte == b'\t' || byte == b' ' || byte == b'\n' || byte == b','
}

/// How many bytes at the front are ignored by themselves.
fn count_ignored(bytes: &[u8]) -> usize
    ensures count { result ≡ prefix_len spec.is_ignored_byte bytes.now }
    ensures within { result ≤ length bytes.now }
{
    bytes
        .iter()
        .take_while(|byte| is_ignored_byte(**byte))
        .count()
}

/// How many bytes pieces of one byte take at the front.
// The count of `count_ignored`, with a contract about the pieces of `ignored_at`.
fn ignored_bytes_len(bytes: &[u8]) -> usize
    ensures run { run_len spec.ignored_at 0 bytes.now ≡ result + run_len spec.ignored_at 0 (drop result bytes.now) }
    ensures within { result ≤ length bytes.now }
{
    count_ignored(bytes)
}

/// How many bytes ignored pieces take at the front.
#[tactic(auto, using(crate::proofs::Bytes::run_step, crate::proofs::Bytes::run_end))]
pub(crate) fn ignored_len(bytes: &[u8]) -> usize
    ensures value { result ≡ run_len spec.ignored_at 0 bytes.now }
    ensures within { result ≤ length bytes.now }
{
    let mut length = ignored_bytes_len(bytes);
    let (_, mut rest) = bytes.split_at(length);
    // Each iteration takes one piece and all ignored single bytes after it, which are counted together.
    'pieces: while let Some(piece) = ignored_at(rest) {
        let (_, following) = rest.split_at(piece);
        let more = ignored_bytes_len(following);
        let (_, next) = following.split_at(more);
        rest = next;
        length += piece + more;
    }
    length
}
