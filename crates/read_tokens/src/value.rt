//! What strings within quotation marks stand for, and the raw value of block strings (section 2.9.4).
ghost use Rattle.std.specs.Prelude.{◌≡◌, ◌≤◌, ◌<◌, ◌++◌, ◌∷◌, [], length, take, drop, IfOk, OnOk, true};
ghost use Rattle.std.specs.List.{prefix_len};
ghost use Rattle.std.specs.Char.{encode_utf8};
ghost use Rattle.std.specs.String.{string_bytes};
ghost use Rattle.read_tokens.specs.Bytes.{begins_with, replaced};
ghost use Rattle.read_tokens.specs.Strings.{part_at};
ghost use Rattle.read_tokens.specs.Blocks.{block_character_at};
ghost use Rattle.read_tokens.specs.Values as spec;

use crate::search::len_before;
use crate::string_token::escape_at;
use std::alloc::AllocError;

/// How many bytes come before the first `\`.
fn plain_len(bytes: &[u8]) -> usize
    ensures count { result ≡ prefix_len spec.is_plain bytes.now }
    ensures within { result ≤ length bytes.now }
{
    len_before(b'\\', bytes)
}

/// Adds what comes before the first `\`, and gives the text from there on.
#[tactic(auto, using(crate::proofs::Values::plain_boundary))]
pub(crate) fn push_plain<'a>(out: &mut String, text: &'a str) -> Result<&'a str, AllocError>
    ensures pushed { OnOk result (string_bytes out.new ≡ string_bytes out.old ++ take (prefix_len spec.is_plain text.now) text.now) }
    ensures rest { IfOk result (λ rest. rest.now ≡ drop (prefix_len spec.is_plain text.now) text.now) }
{
    let (front, rest) = text.split_at(plain_len(text.as_bytes()));
    out.push_str(front)?;
    Ok(rest)
}

/// What the escape at the front of the bytes stands for, and its length.
#[tactic(auto, unfolding(crate::specs::Strings::part_at))]
fn part_at(bytes: &[u8]) -> (char, usize)
    requires { begins_with (92 ∷ []) bytes.now ≡ true }
    ensures value { encode_utf8 result.0 ≡ (part_at bytes.now).0 }
    ensures length { result.1 ≡ (part_at bytes.now).1 }
{
    match bytes {
        [b'\\', escape @ ..] => match escape_at(escape) {
            Some((character, length)) => (character, 1 + length),
            None => ('\\', 1),
        },
        _ => ('\\', 1),
    }
}

/// Adds what the escape at the front of the text stands for, and gives the text after it.
fn push_part<'a>(out: &mut String, text: &'a str) -> Result<&'a str, AllocError>
    requires { begins_with (92 ∷ []) text.now ≡ true }
    ensures pushed { OnOk result (string_bytes out.new ≡ string_bytes out.old ++ (part_at text.now).0) }
    ensures rest { IfOk result (λ rest. rest.now ≡ drop (part_at text.now).1 text.now) }
{
    let (character, length) = part_at(text.as_bytes());
    let (_, rest) = text.split_at(length);
    out.push(character)?;
    Ok(rest)
}

/// Adds a text with each escape replaced.
pub(crate) fn push_parts(out: &mut String, text: &str) -> Result<(), AllocError>
    ensures { OnOk result (string_bytes out.new ≡ string_bytes out.old ++ replaced part_at 0 text.now) }
{
    let mut rest = push_plain(out, text)?;
    'parts: while !rest.is_empty() {
        let following = push_part(out, rest)?;
        let next = push_plain(out, following)?;
        rest = next;
    }
    Ok(())
}
