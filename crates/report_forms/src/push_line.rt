//! A line of a form.

ghost use Rattle.std.specs.Prelude.{◌≡◌, ◌++◌, ◌∷◌, [], ◌<◌, IfOk, OnOk, string_bytes, replicate};
ghost use Rattle.report_forms.specs.Shown.{shown_text, HasOnlyLineFeeds};

use crate::showing::shown;
use std::alloc::{AllocError, Global};

/// A line: what is shown of the text, and a line feed.
pub(crate) fn shown_line(alloc: Global, text: &str) -> Result<String, AllocError>
    ensures value { IfOk result (λ line. string_bytes line ≡ shown_text text.now ++ 10 ∷ []) }
    ensures clean { IfOk result (λ line. HasOnlyLineFeeds (string_bytes line)) }
{
    let line = shown(alloc, text)?;
    format!(in alloc; "{line}\n")
}

/// Adds such a line.
pub(crate) fn push_line(alloc: Global, out: &mut String, text: &str) -> Result<(), AllocError>
    ensures value { OnOk result (string_bytes out.new ≡ string_bytes out.old ++ shown_text text.now ++ 10 ∷ []) }
    ensures clean { OnOk result (HasOnlyLineFeeds (string_bytes out.old) → HasOnlyLineFeeds (string_bytes out.new)) }
{
    let line = shown_line(alloc, text)?;
    out.push_str(&line)
}

/// Adds a character of ASCII so many times.
pub(crate) fn push_times(out: &mut String, character: char, times: usize) -> Result<(), AllocError>
    requires { character < 128 }
    ensures { OnOk result (string_bytes out.new ≡ string_bytes out.old ++ replicate times character) }
{
    for _count in 0..times {
        out.push(character)?;
    }
    Ok(())
}
