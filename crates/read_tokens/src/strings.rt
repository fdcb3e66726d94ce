//! What the tokens of strings stand for (section 2.9.4).
ghost use Rattle.std.specs.Prelude.{◌≡◌, ◌∷◌, [], IfOk};
ghost use Rattle.std.specs.String.{string_bytes};
ghost use Rattle.read_tokens.specs.Bytes as bytes;
ghost use Rattle.read_tokens.specs.Strings as spec;
ghost use Rattle.read_tokens.specs.Blocks as blocks;
ghost use Rattle.read_tokens.specs.Forms.{Enclosed, Marked};

use crate::block_lines::push_block;
use crate::raw::raw_value;
use crate::search::has;
use crate::value::push_parts;
use std::alloc::{AllocError, Global};

/// What is between the marks of a string, which take this many bytes each.
#[tactic(auto, using(crate::proofs::Forms::open_boundary, crate::proofs::Forms::close_boundary))]
pub(crate) fn between(token: &str, mark: usize) -> &str
    requires { Marked mark token.now }
    ensures { result.now ≡ bytes.between mark token.now }
{
    &token[mark..token.len() - mark]
}

/// What a String token of this text stands for. The error is that memory ran out.
#[tactic(auto, using(crate::proofs::Forms::one_mark), unfolding(crate::specs::Strings::string_value))]
pub fn string_value(alloc: Global, token: &str) -> Result<String, AllocError>
    requires { Enclosed (34 ∷ []) token.now }
    ensures { IfOk result (λ value. string_bytes value ≡ spec.string_value token.now) }
{
    let text = between(token, 1);
    // The capacity is enough: no escape is shorter than what it stands for.
    let mut value = String::with_capacity(alloc, text.len())?;
    push_parts(&mut value, text)?;
    Ok(value)
}

/// What a block string of this raw value stands for.
fn value_of_raw(alloc: Global, raw: &str) -> Result<String, AllocError>
    ensures { IfOk result (λ value. string_bytes value ≡ blocks.block_string_value raw.now) }
{
    let mut value = String::with_capacity(alloc, raw.len())?;
    push_block(&mut value, raw)?;
    Ok(value)
}

/// What a BlockString token of this text stands for. The error is that memory ran out.
///
/// A text without `\` is its own raw value.
#[tactic(auto, using(crate::proofs::Forms::three_marks), unfolding(crate::specs::Blocks::raw_value, crate::specs::Blocks::block_value))]
pub fn block_value(alloc: Global, token: &str) -> Result<String, AllocError>
    requires { Enclosed blocks.quotes token.now }
    ensures { IfOk result (λ value. string_bytes value ≡ blocks.block_value token.now) }
{
    let text = between(token, 3);
    if has(b'\\', text.as_bytes()) {
        let raw = raw_value(alloc, text)?;
        return value_of_raw(alloc, raw.as_str());
    }
    value_of_raw(alloc, text)
}
