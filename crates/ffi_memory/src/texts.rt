//! Texts one after the other, cut at their ends and decoded.

ghost use Rattle.std.specs.Prelude.{◌≡◌, ℕ, List, Err, IfOk, IfErr, IsUtf8, map};
ghost use Rattle.std.specs.List.{All};
ghost use Rattle.ffi_memory.specs.Cut.{IsCut, IsTextsFault};
ghost use Rattle.ffi_memory.specs.declared.texts.TextsFault.TheVariants.{Ends, NotUtf8};

use std::alloc::{AllocError, AllocFailed, Global};
use thiserror::Error;

/// Why bytes and ends give no texts.
#[derive(Clone, Copy, Debug, PartialEq, Eq, Error)]
pub enum TextsFault {
    /// Memory ran out.
    #[error("out of memory")]
    Memory,
    /// The ends are not in order, or the last is not that of the bytes.
    #[error("the ends are not those of texts")]
    Ends,
    /// A text is not UTF-8.
    #[error("a text is not UTF-8")]
    NotUtf8,
}

impl From<AllocError> for TextsFault {
    ghost use Rattle.std.specs.Prelude.{◌≡◌};
    ghost use Rattle.ffi_memory.specs.declared.texts.TextsFault.TheVariants.{Memory};

    ghost from_gives = { λ _ e. e ≡ Memory };

    fn from(_refused: AllocError) -> TextsFault {
        TextsFault::Memory
    }
}

impl<T: Drop> From<AllocFailed<T>> for TextsFault {
    ghost use Rattle.std.specs.Prelude.{◌≡◌};
    ghost use Rattle.ffi_memory.specs.declared.texts.TextsFault.TheVariants.{Memory};

    ghost from_gives = { λ _ e. e ≡ Memory };

    fn from(_refused: AllocFailed<T>) -> TextsFault {
        TextsFault::Memory
    }
}

/// The texts in these bytes, each with its end: the first begins at 0, each other one where the one before ends.
pub fn texts_at<'a>(
    alloc: Global,
    bytes: &'a [u8],
    ends: &[usize],
) -> Result<Vec<&'a str>, TextsFault>
    ensures texts { IfOk result (λ texts. IsCut bytes.now ends.now (map (λ t. t.now) texts.items)) }
    ensures utf8 { IfOk result (λ texts. All IsUtf8 (map (λ t. t.now) texts.items)) }
    ensures fault { IfErr result (IsTextsFault bytes.now ends.now) }
{
    let pieces = cut(alloc, bytes, ends)?;
    decode(alloc, &pieces)
}

/// The bytes between each end and the one before.
#[tactic(auto, using(crate::proofs::Cuts::none_before, crate::proofs::Cuts::none_following, crate::proofs::Cuts::none_over, crate::proofs::Cuts::cut_whole))]
fn cut<'a>(alloc: Global, bytes: &'a [u8], ends: &[usize]) -> Result<Vec<&'a [u8]>, TextsFault>
    ensures texts { IfOk result (λ texts. IsCut bytes.now ends.now (map (λ t. t.now) texts.items)) }
    ensures fault { result ≡ Err Ends → (texts : List (List ℕ)) → IsCut bytes.now ends.now texts → ⊥ }
    ensures encoding { result ≡ Err NotUtf8 → ⊥ }
{
    let mut texts = Vec::new(alloc);
    let mut rest = bytes;
    let mut start = 0;
    for end in ends {
        let end = *end;
        if end < start {
            return Err(TextsFault::Ends);
        }
        if rest.len() < end - start {
            return Err(TextsFault::Ends);
        }
        let (text, following) = rest.split_at(end - start);
        texts.push(text)?;
        rest = following;
        start = end;
    }
    if !rest.is_empty() {
        return Err(TextsFault::Ends);
    }
    Ok(texts)
}

/// The texts, if each is UTF-8.
fn decode<'a>(alloc: Global, pieces: &[&'a [u8]]) -> Result<Vec<&'a str>, TextsFault>
    ensures texts { IfOk result (λ texts. map (λ t. t.now) texts.items ≡ map (λ t. t.now) pieces.now) }
    ensures utf8 { IfOk result (λ texts. All IsUtf8 (map (λ t. t.now) texts.items)) }
    ensures fault { result ≡ Err NotUtf8 → All IsUtf8 (map (λ t. t.now) pieces.now) → ⊥ }
    ensures order { result ≡ Err Ends → ⊥ }
{
    let mut texts = Vec::new(alloc);
    for piece in pieces {
        match str::from_utf8(piece) {
            Ok(text) => texts.push(text)?,
            Err(_) => return Err(TextsFault::NotUtf8),
        }
    }
    Ok(texts)
}
