//! Statuses, and the bytes that go with them.

ghost use Rattle.std.specs.Prelude.{◌≡◌, []};

use std::alloc::Global;

/// The texts are accepted, or what was asked for is done.
pub(crate) const ACCEPTED: u32 = 0;
/// A text is refused.
pub(crate) const REFUSED: u32 = 1;
/// A text or its name is not UTF-8.
pub(crate) const NOT_UTF8: u32 = 3;
/// Memory ran out.
pub(crate) const MEMORY: u32 = 4;
/// The stack is too small for the nesting, by measure.
pub(crate) const STACK: u32 = 5;
/// The ends are not those of texts and their names. The status 6, for a null pointer, is told before these
/// calls.
pub(crate) const ENDS: u32 = 7;
/// The prefix is not of spaces and tabs.
pub(crate) const PREFIX: u32 = 8;

/// A status, and the bytes that go with it.
#[derive(Drop)]
pub(crate) struct Answer {
    /// How it ended.
    pub(crate) status: u32,
    /// The report or the text, if there is one.
    pub(crate) bytes: Vec<u8>,
}

/// The status alone.
pub(crate) fn bare(alloc: Global, status: u32) -> Answer
    ensures status { result.status ≡ status }
    ensures bytes { result.bytes.items ≡ [] }
{
    Answer {
        status,
        bytes: Vec::new(alloc),
    }
}
