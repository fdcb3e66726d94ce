//! The texts of names.
ghost use Rattle.std.specs.Prelude.{◌≡◌, IfOk, IsOk, IsTrue};
ghost use Rattle.graphql_names.specs.NameText.{text_bytes, text_is_static};

use crate::text_part::TextPart;
use std::alloc::AllocError;
use std::rc::RcStr;

/// A text that several names may share, a part of a text that many names share, or a text of the program.
#[derive(Drop)]
pub(crate) enum NameText {
    Shared(RcStr),
    // The text of a name that was read: it takes no memory of its own, as it points into the whole text.
    Part(TextPart),
    Static(&'static str),
}

impl NameText {
    /// The text itself.
    pub(crate) fn as_str(&self) -> &str
        ensures { result.now ≡ text_bytes self.now }
    {
        match self {
            NameText::Shared(text) => text.as_str(),
            NameText::Part(part) => part.as_str(),
            NameText::Static(text) => *text,
        }
    }
}

/// The same text, which is not copied.
impl Clone for NameText {
    ghost is_clone = { λ text copy. (text_bytes copy ≡ text_bytes text) × (text_is_static copy ≡ text_is_static text) };

    fn clone(&self) -> Result<NameText, AllocError>
        ensures same { IfOk result (λ copy. (text_bytes copy ≡ text_bytes self.now) × (text_is_static copy ≡ text_is_static self.now)) }
        ensures stat { IsTrue (text_is_static self.now) → IsOk result }
    {
        match self {
            NameText::Shared(text) => Ok(NameText::Shared(text.clone()?)),
            NameText::Part(part) => Ok(NameText::Part(part.clone()?)),
            NameText::Static(text) => Ok(NameText::Static(*text)),
        }
    }
}
