//! Bytes before they are written.

ghost use Rattle.std.specs.Prelude.{◌≡◌, ◌++◌, ◌∷◌, [], length, OnOk, IfSome};
ghost use Rattle.checker_calls.specs.Parts.{parts_bytes, AreSound, LiesAt, AddsBytes};

use std::alloc::{AllocError, Global};
use std::fmt;

/// A text of this many bytes or more is long.
const LONG: usize = 256;

/// A long text is looked for among this many of the last ones.
const LOOKED_AT: usize = 64;

/// Bytes in parts. A long text that is repeated is kept once, so that faults whose lines hold the same long name are told in
/// little memory.
pub struct Parts {
    /// What is kept.
    pub(crate) kept: Vec<u8>,
    /// The range in it of each part but the last.
    pub(crate) ranges: Vec<(usize, usize)>,
    /// Where in it the last part begins, which goes to the end.
    pub(crate) last: usize,
    /// How many bytes all parts have.
    pub(crate) len: usize,
    /// Where in what is kept long texts begin.
    long: Vec<usize>,
}

// Not derived: a derived drop is proved again in each crate that drops one.
impl Drop for Parts {
    fn drop(self) {
        let Parts {
            kept: _,
            ranges: _,
            last: _,
            len: _,
            long: _,
        } = self;
    }
}

impl Parts {
    /// These bytes, in one part.
    pub(crate) fn of(alloc: Global, bytes: Vec<u8>) -> Parts
        ensures sound { AreSound result }
        ensures bytes { parts_bytes result ≡ bytes.items }
    {
        let len = bytes.len();
        Parts {
            kept: bytes,
            ranges: Vec::new(alloc),
            last: 0,
            len,
            long: Vec::new(alloc),
        }
    }

    /// Adds a text. After an error the parts are of no use.
    pub(crate) fn add(&mut self, text: &[u8]) -> Result<(), AllocError>
        ensures { OnOk result (AddsBytes self.old text.now self.new) }
    {
        let Some(len) = self.len.checked_add(text.len()) else {
            return Err(AllocError);
        };
        self.len = len;
        if text.len() < LONG {
            return self.kept.extend_from_slice(text);
        }
        match self.find(text) {
            Some(start) => self.repeat(start, start + text.len()),
            None => {
                self.long.push(self.kept.len())?;
                self.kept.extend_from_slice(text)
            }
        }
    }

    /// Where in what is kept the text lies, if it is found.
    fn find(&self, text: &[u8]) -> Option<usize>
        ensures { IfSome result (LiesAt self.now.kept.items text.now) }
    {
        let first = self.long.len().saturating_sub(LOOKED_AT);
        for start in &self.long[first..] {
            if let Some(kept) = self.kept.get(*start..)
                && kept.starts_with(text)
            {
                return Some(*start);
            }
        }
        None
    }

    /// Adds a part of what is kept once more.
    fn repeat(&mut self, start: usize, end: usize) -> Result<(), AllocError>
        ensures kept { self.new.kept ≡ self.old.kept }
        ensures len { self.new.len ≡ self.old.len }
        ensures ranges { OnOk result (self.new.ranges.items ≡ self.old.ranges.items ++ (self.old.last, length self.old.kept.items) ∷ (start, end) ∷ []) }
        ensures last { OnOk result (self.new.last ≡ length self.old.kept.items) }
    {
        let kept = self.kept.len();
        self.ranges.push((self.last, kept))?;
        self.ranges.push((start, end))?;
        self.last = kept;
        Ok(())
    }
}

impl fmt::Write for Parts {
    ghost write_str_gives = { AddsBytes };

    fn write_str(&mut self, text: &str) -> fmt::Result {
        match self.add(text.as_bytes()) {
            Ok(()) => Ok(()),
            Err(AllocError) => Err(fmt::Error),
        }
    }
}
