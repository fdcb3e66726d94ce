//! A tree's text under a layout, written to a device or displayed.
ghost use Rattle.std.specs.Prelude.{◌≡◌, ◌≤◌, ◌<◌, ◌^◌, OnOk, IfErr, Some, None, List, ℕ, codes, true, false, take, length};
ghost use Rattle.std.specs.Option.{option_copied};
ghost use Rattle.graphql_names.specs.Device.{device_failed};
ghost use Rattle.tree_literals.specs.LineLayout.{Prefix, default_prefix};
ghost use Rattle.tree_literals.specs.Levels.{level_depth};
ghost use Rattle.tree_literals.specs.Serialized.{serialized, GainsText};

use crate::level::Level;
use crate::shown::Shown;
use crate::sink::{Cause, Printer, Sink, WriteFault};
use graphql_names::Device;
use std::fmt;
use std::io::Write;

/// A tree that has a text.
pub trait Tree {
    /// Its text under a prefix, or on one line, from a level on.
    ghost text: { Self → Prefix → ℕ → List ℕ };

    /// Puts its text.
    fn put<S: Sink>(&self, sink: &mut S, prefix: Option<&str>, level: &Level)
        ensures { S.puts sink.old (text self.now (option_copied prefix.entry) (level_depth level.now)) sink.new };

    /// Its text, under a prefix of two spaces.
    fn serialize(&self) -> Serialize<'_, Self>
        ensures tree { result.tree.now ≡ self.now }
        ensures prefix { option_copied result.prefix ≡ default_prefix }
        ensures level { result.level ≡ 0 }
    {
        Serialize::new(self)
    }
}

/// A tree and the layout of its text: under a prefix of two spaces, if not said otherwise.
#[derive_where(Clone, Copy)]
pub struct Serialize<'a, T> {
    tree: &'a T,
    prefix: Option<&'a str>,
    level: usize,
}

impl<'a, T> Serialize<'a, T> {
    /// Under a prefix of two spaces.
    pub fn new(tree: &'a T) -> Self
        ensures tree { result.tree.now ≡ tree.now }
        ensures prefix { option_copied result.prefix ≡ default_prefix }
        ensures level { result.level ≡ 0 }
    {
        Serialize {
            tree,
            prefix: Some("  "),
            level: 0,
        }
    }

    /// On one line.
    pub fn no_indent(self) -> Self
        ensures tree { result.tree.now ≡ self.entry.tree.now }
        ensures prefix { option_copied result.prefix ≡ None }
        ensures level { result.level ≡ self.entry.level }
    {
        Serialize {
            prefix: None,
            ..self
        }
    }

    /// Under a prefix.
    pub fn indent_prefix(self, prefix: &'a str) -> Self
        ensures tree { result.tree.now ≡ self.entry.tree.now }
        ensures prefix { option_copied result.prefix ≡ Some prefix.now }
        ensures level { result.level ≡ self.entry.level }
    {
        Serialize {
            prefix: Some(prefix),
            ..self
        }
    }

    /// With this many prefixes before each line that is not empty, also the first.
    pub fn initial_indent_level(self, level: usize) -> Self
        ensures tree { result.tree.now ≡ self.entry.tree.now }
        ensures prefix { option_copied result.prefix ≡ option_copied self.entry.prefix }
        ensures level { result.level ≡ level }
    {
        Serialize { level, ..self }
    }
}

impl<T: Tree> Serialize<'_, T> {
    /// Writes the text by calls of `write`. It takes no memory.
    ///
    /// After an error exactly the first `out` bytes of the text are out.
    pub fn write_to<W: Write>(&self, device: &mut Device<W>) -> Result<(), WriteFault>
        requires { device_failed device.old ≡ false }
        ensures ok { OnOk result (GainsText W.contents device.old device.new (serialized T.text self.now)) }
        ensures out { IfErr result (λ fault. GainsText W.contents device.old device.new (take fault.out (serialized T.text self.now))) }
        ensures within { IfErr result (λ fault. fault.out ≤ length (serialized T.text self.now)) }
        ensures writer { IfErr result (λ fault. fault.cause ≡ Cause.Writer → (fault.out < length (serialized T.text self.now)) × (device_failed device.new ≡ true)) }
        ensures level { IfErr result (λ fault. fault.cause ≡ Cause.Level → 2 ^ 64 ≤ length (serialized T.text self.now)) }
    {
        let mut printer = Printer {
            device,
            out: 0,
            cause: None,
        };
        self.tree
            .put(&mut printer, self.prefix, &Level::Outer(self.level));
        match printer.cause {
            None => Ok(()),
            Some(cause) => Err(WriteFault {
                cause,
                out: printer.out,
            }),
        }
    }
}

impl<T: Tree> fmt::Display for Serialize<'_, T> {
    ghost output = { λ s. Some (serialized T.text s) };

    fn fmt<W: fmt::Write>(&self, f: &mut fmt::Formatter<W>) -> fmt::Result {
        let mut shown = Shown { f, failed: false };
        self.tree
            .put(&mut shown, self.prefix, &Level::Outer(self.level));
        if shown.failed {
            return Err(fmt::Error);
        }
        Ok(())
    }
}
