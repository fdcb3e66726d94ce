//! A fault with its line, in colours.

ghost use Rattle.std.specs.Prelude.{◌≡◌, ◌++◌, IfOk, OnOk, string_bytes};
ghost use Rattle.std.specs.List.{flat_map};
ghost use Rattle.std.specs.Str.Lines.{lines};
ghost use Rattle.report_forms.specs.Colours.{mark_colour, line_colour, coloured_line, IsColoured};

use crate::entry::Entry;
use crate::severity::Severity;
use crate::showing::shown;
use std::alloc::{AllocError, Global};

impl Entry {
    /// The lines of the text form for a terminal that shows colours: the first is bold, marks are red, or yellow under a warning, a
    /// place that belongs to the fault is cyan and a hint green. Each line ends in the terminal's own colour.
    pub fn coloured(&self, alloc: Global) -> Result<String, AllocError>
        ensures { IfOk result (λ text. IsColoured self.now (string_bytes text)) }
    {
        let heading = self.heading(alloc)?;
        let heading = shown(alloc, &heading)?;
        let mut below = String::new(alloc);
        self.push_below(alloc, &mut below)?;
        let mut out = format!(in alloc; "\x1b[1m{heading}\x1b[0m\n")?;
        push_coloured(&mut out, self.severity, &below)?;
        Ok(out)
    }
}

/// Adds each line of the text in its colour.
fn push_coloured(out: &mut String, severity: Severity, text: &str) -> Result<(), AllocError>
    ensures { OnOk result (string_bytes out.new ≡ string_bytes out.old ++ flat_map (coloured_line severity) (lines text.now)) }
{
    for line in text.lines() {
        let colour = line_colour(severity, line);
        write!(out, "{colour}{line}\x1b[0m\n")?;
    }
    Ok(())
}

/// The code of the colour of a line that is below the heading.
fn line_colour(severity: Severity, line: &str) -> &'static str
    ensures { result.now ≡ line_colour severity line.now }
{
    let line = line.as_bytes();
    if line.starts_with(b"  = help: ") {
        "\x1b[32m"
    } else if line.starts_with(b"  = ") {
        "\x1b[36m"
    } else if line.ends_with(b"^") {
        mark_colour(severity)
    } else {
        ""
    }
}

/// The code of the colour of marks.
fn mark_colour(severity: Severity) -> &'static str
    ensures { result.now ≡ mark_colour severity }
{
    match severity {
        Severity::Error => "\x1b[31m",
        Severity::Warning => "\x1b[33m",
    }
}
