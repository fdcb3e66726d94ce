//! What a part of a shared text is made of, and its text.
ghost use Rattle.std.specs.Prelude.{◌≡◌, ◌≤◌, IfOk, slice_range};
ghost use Rattle.std.specs.Rc.{rc_str_bytes};
ghost use Rattle.std.specs.Str.{IsCharBoundary};
ghost use Rattle.graphql_names.specs.TextPart.{part_bytes};

use crate::text_part::TextPart;
use std::alloc::AllocError;
use std::rc::RcStr;

impl TextPart {
    /// The part of `whole` from byte `start` up to byte `end`, which is not before `start`. At both the text may be
    /// cut, as `str::is_char_boundary` tells. No text is copied: memory is refused only if the text is shared as often
    /// as can be counted.
    pub fn new(whole: &RcStr, start: usize, end: usize) -> Result<TextPart, AllocError>
        requires ordered { start ≤ end }
        requires begins { IsCharBoundary (rc_str_bytes whole.now) start }
        requires ends { IsCharBoundary (rc_str_bytes whole.now) end }
        ensures { IfOk result (λ part. part_bytes part ≡ slice_range (rc_str_bytes whole.now) start end) }
    {
        Ok(TextPart {
            whole: whole.clone()?,
            start,
            end,
        })
    }

    /// The whole of a shared text.
    pub(crate) fn all_of(whole: RcStr) -> TextPart
        ensures { part_bytes result ≡ rc_str_bytes whole }
    {
        let end = whole.as_str().len();
        TextPart {
            whole,
            start: 0,
            end,
        }
    }

    /// The part of this part from its byte `start` up to its byte `end`, which is not before `start`. At both its text
    /// may be cut, as `str::is_char_boundary` tells. The text is neither copied nor shared once more.
    pub fn narrowed(self, start: usize, end: usize) -> TextPart
        requires ordered { start ≤ end }
        requires begins { IsCharBoundary (part_bytes self) start }
        requires ends { IsCharBoundary (part_bytes self) end }
        ensures { part_bytes result ≡ slice_range (part_bytes self) start end }
    {
        let TextPart {
            whole,
            start: before,
            end: _,
        } = self;
        TextPart {
            whole,
            start: before + start,
            end: before + end,
        }
    }

    /// The text of the part.
    pub fn as_str(&self) -> &str
        ensures { result.now ≡ part_bytes self.now }
    {
        &self.whole.as_str()[self.start..self.end]
    }
}

/// The same part, which is not copied.
impl Clone for TextPart {
    ghost is_clone = { λ part copy. part_bytes copy ≡ part_bytes part };

    fn clone(&self) -> Result<TextPart, AllocError>
        ensures { IfOk result (λ copy. part_bytes copy ≡ part_bytes self.now) }
    {
        TextPart::new(&self.whole, self.start, self.end)
    }
}
