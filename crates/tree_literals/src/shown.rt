//! A formatter as a sink.
ghost use Rattle.std.specs.Prelude.{◌≡◌, ℕ, List, [], ◌∷◌, ◌++◌, IsTrue};
ghost use Rattle.tree_literals.specs.Joined.{joined};
ghost use Rattle.tree_literals.specs.Shown.{PutsShown, PutsShown-none, PutsShown-part, PutsShown-more};

use crate::sink::Sink;
use std::fmt;

/// A formatter, and whether it failed.
#[derive(Drop)]
pub(crate) struct Shown<'a, W> {
    pub(crate) f: &'a mut fmt::Formatter<W>,
    pub(crate) failed: bool,
}

impl<W: fmt::Write> Sink for Shown<'_, W> {
    ghost puts = { PutsShown W.write_str_gives };

    fn put(&mut self, text: &str) {
        if !self.failed {
            self.failed = self.f.write_str(text).is_err();
        }
    }

    fn is_stopped(&self) -> bool {
        self.failed
    }

    ghost none = { PutsShown-none W.write_str_gives };

    ghost part = { PutsShown-part W.write_str_gives };

    ghost more = { PutsShown-more W.write_str_gives };
}
