//! Where printed text goes.
ghost use Rattle.std.specs.Prelude.{◌≡◌, ◌≤◌, ◌<◌, ℕ, List, [], ◌∷◌, ◌++◌, Option, IsTrue, MatchOption, ⊤, None, Some};
ghost use Rattle.graphql_names.specs.Device.{device_inner, device_failed};
ghost use Rattle.tree_literals.specs.Joined.{joined};
ghost use Rattle.tree_literals.specs.Puts.{PutsOut, PutsOut-none, PutsOut-part, PutsOut-more};

use graphql_names::Device;
use std::io::Write;
use thiserror::Error;

/// Takes text in order. After a failure it takes nothing more.
pub trait Sink {
    /// Relates the sink before a text, the text, and the sink after it.
    ghost puts: { Self → List ℕ → Self → Type 0 };

    fn put(&mut self, text: &str)
        ensures { puts self.old text.now self.new };

    /// Whether it has failed, so that what is put changes nothing.
    fn is_stopped(&self) -> bool
        ensures { IsTrue result → (text : List ℕ) → puts self.now text self.now };

    /// To put no text is to put nothing.
    ghost none: { (s : Self) → puts s (joined []) s };

    /// A text, and then further ones, are all of them.
    ghost part: { (s t u : Self) (text : List ℕ) (texts : List (List ℕ)) → puts s text t → puts t (joined texts) u → puts s (joined (text ∷ texts)) u };

    /// Texts, and then one more, are all of them.
    ghost more: { (s t u : Self) (texts : List (List ℕ)) (text : List ℕ) → puts s (joined texts) t → puts t text u → puts s (joined (texts ++ text ∷ [])) u };
}

/// Why a text is not all out.
#[derive(Clone, Copy, Debug, PartialEq, Eq)]
pub enum Cause {
    /// The writer has failed or took nothing.
    Writer,
    /// A level, or the number of bytes that are out, would pass `usize::MAX`.
    Level,
}

/// What kept a text from being all out, and how many of its bytes are out.
#[derive(Clone, Copy, Debug, PartialEq, Eq, Error)]
#[error("the text is not all out")]
pub struct WriteFault {
    /// Why the text is not all out.
    pub cause: Cause,
    /// How many bytes of the text are out, from its beginning.
    pub out: usize,
}

/// A device, how many bytes are out, and what stopped it.
#[derive(Drop)]
pub(crate) struct Printer<'a, W> {
    pub(crate) device: &'a mut Device<W>,
    pub(crate) out: usize,
    pub(crate) cause: Option<Cause>,
}

impl<W: Write> Sink for Printer<'_, W> {
    ghost puts = { PutsOut W.contents };

    fn put(&mut self, text: &str) {
        if self.cause.is_some() {
            return;
        }
        if self.out > usize::MAX - text.len() {
            self.cause = Some(Cause::Level);
            return;
        }
        let taken = self.device.write_front(text.as_bytes());
        self.out += taken;
        if taken < text.len() {
            self.cause = Some(Cause::Writer);
        }
    }

    fn is_stopped(&self) -> bool {
        self.cause.is_some()
    }

    ghost none = { PutsOut-none W.contents };

    ghost part = { PutsOut-part W.contents };

    ghost more = { PutsOut-more W.contents };
}
