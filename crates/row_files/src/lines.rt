//! Texts that grow at their end.

use std::alloc::{AllocError, Global};
use std::fmt::{Debug, Display};

/// A text that grows at its end. If memory is refused, it keeps that, and is no longer whole.
pub struct Lines {
    text: String,
    is_refused: bool,
}

impl Drop for Lines {
    fn drop(self) {
        let Lines {
            text: _,
            is_refused: _,
        } = self;
    }
}

impl Lines {
    /// The empty text.
    pub fn new(alloc: Global) -> Lines {
        Lines {
            text: String::new(alloc),
            is_refused: false,
        }
    }

    /// Adds the text.
    pub fn put(&mut self, text: &str) {
        let grown = self.text.push_str(text);
        self.keep(grown);
    }

    /// Adds what is shown.
    pub fn show<T: Display>(&mut self, shown: &T) {
        let grown = write!(self.text, "{shown}");
        self.keep(grown);
    }

    /// Adds what is shown, between these.
    pub fn show_between<T: Display>(&mut self, front: &str, shown: &T, back: &str) {
        let grown = write!(self.text, "{front}{shown}{back}");
        self.keep(grown);
    }

    /// Adds what is shown for the reader of a fault.
    pub fn debug<T: Debug>(&mut self, shown: &T) {
        let grown = write!(self.text, "{shown:?}");
        self.keep(grown);
    }

    /// Keeps whether memory was refused.
    fn keep(&mut self, grown: Result<(), AllocError>) {
        self.is_refused |= grown.is_err();
    }

    /// The text so far.
    pub fn as_str(&self) -> &str {
        self.text.as_str()
    }

    /// Whether memory was refused.
    pub(crate) fn is_refused(&self) -> bool {
        self.is_refused
    }

    /// Makes it empty.
    pub fn clear(&mut self) {
        self.text.clear();
    }
}
