//! A part of a shared text.
ghost use Rattle.std.specs.Prelude.{◌≤◌};
ghost use Rattle.std.specs.Rc.{rc_str_bytes};
ghost use Rattle.std.specs.Str.{IsCharBoundary};

use std::rc::RcStr;

/// A part of a shared text, of which nothing is copied: a name that was read is a part of the text that
/// it was read from.
#[derive(Drop)]
pub struct TextPart {
    pub(crate) whole: RcStr,
    /// Where the part begins and ends in the whole, in bytes.
    pub(crate) start: usize,
    pub(crate) end: usize,
    ghost ordered: { start ≤ end },
    ghost begins: { IsCharBoundary (rc_str_bytes whole) start },
    ghost ends: { IsCharBoundary (rc_str_bytes whole) end },
}
