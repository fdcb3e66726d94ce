//! The raw value of block strings: what is between their marks, with each `\"""` replaced (section 2.9.4).
ghost use Rattle.std.specs.Prelude.{◌≡◌, ◌≤◌, ◌<◌, ◌++◌, ◌∷◌, [], drop, IfOk, OnOk, true};
ghost use Rattle.std.specs.String.{string_bytes};
ghost use Rattle.read_tokens.specs.Bytes.{begins_with, replaced};
ghost use Rattle.read_tokens.specs.Blocks.{block_character_at};

use crate::value::push_plain;
use std::alloc::{AllocError, Global};

/// What the block string character at the front of the bytes stands for, and its length.
#[tactic(auto, unfolding(crate::specs::Blocks::block_character_at))]
fn block_character_at(bytes: &[u8]) -> (&'static str, usize)
    requires { begins_with (92 ∷ []) bytes.now ≡ true }
    ensures value { result.0.now ≡ (block_character_at bytes.now).0 }
    ensures length { result.1 ≡ (block_character_at bytes.now).1 }
{
    match bytes {
        [b'\\', b'"', b'"', b'"', ..] => ("\"\"\"", 4),
        _ => ("\\", 1),
    }
}

/// Adds what the character at the front of the text stands for, and gives the text after it.
fn push_character<'a>(out: &mut String, text: &'a str) -> Result<&'a str, AllocError>
    requires { begins_with (92 ∷ []) text.now ≡ true }
    ensures pushed { OnOk result (string_bytes out.new ≡ string_bytes out.old ++ (block_character_at text.now).0) }
    ensures rest { IfOk result (λ rest. rest.now ≡ drop (block_character_at text.now).1 text.now) }
{
    let (value, length) = block_character_at(text.as_bytes());
    let (_, rest) = text.split_at(length);
    out.push_str(value)?;
    Ok(rest)
}

/// The text with each `\"""` replaced.
pub(crate) fn raw_value(alloc: Global, text: &str) -> Result<String, AllocError>
    ensures { IfOk result (λ raw. string_bytes raw ≡ replaced block_character_at 0 text.now) }
{
    // The capacity is enough: what replaces `\"""` is shorter.
    let mut out = String::with_capacity(alloc, text.len())?;
    let mut rest = push_plain(&mut out, text)?;
    'characters: while !rest.is_empty() {
        let following = push_character(&mut out, rest)?;
        let next = push_plain(&mut out, following)?;
        rest = next;
    }
    Ok(out)
}
