//! A fault as a workflow command.

ghost use Rattle.std.specs.Prelude.{◌≡◌, ◌++◌, ◌∷◌, [], OnOk, IfOk, string_bytes};
ghost use Rattle.std.specs.List.{flat_map};
ghost use Rattle.report_forms.specs.Shown.{shown_text, HasOnlyLineFeeds};
ghost use Rattle.report_forms.specs.Forms.{command_head, command, properties, related_line};

use crate::entry::{Entry, Place, Related};
use crate::escapes::push_escaped;
use crate::push_line::shown_line;
use crate::severity::Severity;
use crate::short_form::located;
use std::alloc::{AllocError, Global};

impl Entry {
    /// The fault as a workflow command, `::SEVERITY file=..,line=..,endLine=..,col=..,endColumn=..,title=RULE::MESSAGE`. Lines of the
    /// message are other places that belong to it, and a hint if there is one.
    pub fn github(&self, alloc: Global) -> Result<String, AllocError>
        ensures value { IfOk result (λ text. string_bytes text ≡ shown_text (command self.now) ++ 10 ∷ []) }
        ensures clean { IfOk result (λ text. HasOnlyLineFeeds (string_bytes text)) }
    {
        let mut command = String::new(alloc);
        self.push_command(alloc, &mut command)?;
        shown_line(alloc, &command)
    }

    /// Adds the command, from its parts.
    fn push_command(&self, alloc: Global, out: &mut String) -> Result<(), AllocError>
        ensures { OnOk result (string_bytes out.new ≡ string_bytes out.old ++ command self.now) }
    {
        push_escaped(out, command_head(self.severity), &self.path, true)?;
        push_place(out, self.place)?;
        push_escaped(out, ",title=", self.rule, true)?;
        push_escaped(out, "::", &self.message, false)?;
        push_related(alloc, out, &self.related)?;
        match &self.hint {
            None => Ok(()),
            Some(hint) => push_escaped(out, "%0A= help: ", hint, false),
        }
    }
}

/// How the command begins, up to its file.
fn command_head(severity: Severity) -> &'static str
    ensures { result.now ≡ command_head severity }
{
    match severity {
        Severity::Error => "::error file=",
        Severity::Warning => "::warning file=",
    }
}

/// Adds a line for each place that belongs to the fault.
fn push_related(alloc: Global, out: &mut String, related: &[Related]) -> Result<(), AllocError>
    ensures { OnOk result (string_bytes out.new ≡ string_bytes out.old ++ flat_map related_line related.now) }
{
    for other in related {
        let place = located(alloc, &other.path, other.start)?;
        push_escaped(out, "%0A= ", &place, false)?;
        push_escaped(out, ": ", &other.words, false)?;
    }
    Ok(())
}

/// Adds the properties of the place.
fn push_place(out: &mut String, place: Option<Place>) -> Result<(), AllocError>
    ensures { OnOk result (string_bytes out.new ≡ string_bytes out.old ++ properties place) }
{
    let Some(Place { start, end, .. }) = place else {
        return Ok(());
    };
    write!(
        out,
        ",line={},endLine={},col={},endColumn={}",
        start.line, end.line, start.column, end.column,
    )
}
