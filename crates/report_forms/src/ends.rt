//! Where line terminators and characters end.

ghost use Rattle.std.specs.Prelude.{◌≡◌, ◌+◌, ◌<◌, ◌≤◌, ◌/◌, length, IfOk};
ghost use Rattle.report_forms.specs.Ends.{ends_line, ends_character, how_many};
ghost use Rattle.report_forms.specs.Starts.{counts_up_to};

use std::alloc::{AllocError, Global};

/// How many bytes a piece of a text has.
const PIECE: usize = 64;

/// Whether a line terminator ends after byte `last`: it is a line feed, or a carriage return that no line feed follows
/// (section 2.1.2).
pub(crate) fn ends_line(text: &[u8], last: usize) -> bool
    requires { last < length text.now }
    ensures { result ≡ ends_line text.now (last + 1) }
{
    match text[last] {
        b'\n' => true,
        b'\r' => text.get(last + 1) != Some(&b'\n'),
        _ => false,
    }
}

/// Whether a character ends after byte `last`: the text ends there, or the next byte begins another.
pub(crate) fn ends_character(text: &[u8], last: usize) -> bool
    requires { last < length text.now }
    ensures { result ≡ ends_character text.now (last + 1) }
{
    match text.get(last + 1) {
        None => true,
        Some(byte) => *byte < 0x80 || *byte >= 0xc0,
    }
}

/// How many characters end after `from` and at or before `to`.
pub(crate) fn characters_between(text: &[u8], from: usize, to: usize) -> usize
    requires order { from ≤ to }
    requires within { to ≤ length text.now }
    ensures value { result ≡ how_many (ends_character text.now) from to }
    ensures bound { result ≤ to }
{
    let mut count = 0usize;
    for last in from..to {
        if ends_character(text, last) {
            count += 1;
        }
    }
    count
}

/// How many characters end at or before the beginning of each piece of the text.
pub(crate) fn counts_of(alloc: Global, text: &[u8]) -> Result<Vec<usize>, AllocError>
    ensures { IfOk result (λ counts. counts.items ≡ counts_up_to text.now (length text.now / 64)) }
{
    let mut counts: Vec<usize> = vec![in alloc; 0]?;
    let mut count = 0usize;
    for piece in 0..text.len() / PIECE {
        let start = piece * PIECE;
        count += characters_between(text, start, start + PIECE);
        counts.push(count)?;
    }
    Ok(counts)
}

/// How many characters end at or before the place, where these are the counts of the text.
pub(crate) fn characters_up_to(text: &[u8], counts: &[usize], place: usize) -> usize
    requires counts { counts.now ≡ counts_up_to text.now (length text.now / 64) }
    requires within { place ≤ length text.now }
    ensures { result ≡ how_many (ends_character text.now) 0 place }
{
    let piece = place / PIECE;
    counts[piece] + characters_between(text, piece * PIECE, place)
}
