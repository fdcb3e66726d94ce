//! Escapes of workflow commands.

ghost use Rattle.std.specs.Prelude.{◌≡◌, ◌++◌, OnOk, string_bytes};
ghost use Rattle.std.specs.Str.{encode_utf8_all};
ghost use Rattle.report_forms.specs.Escapes.{escaped_character, escaped_text};

use std::alloc::{AllocError, Global};

/// Adds a text after a head, as it may be written in a workflow command, in a property of it or as its message: `%`, CR and LF are
/// escaped, and in a property `:` and `,` too.
pub(crate) fn push_escaped(
    out: &mut String,
    head: &str,
    text: &str,
    in_property: bool,
) -> Result<(), AllocError>
    ensures { OnOk result (string_bytes out.new ≡ string_bytes out.old ++ head.now ++ escaped_text in_property text.now) }
{
    out.push_str(head)?;
    for character in text.chars() {
        push_escape(out, character, in_property)?;
    }
    Ok(())
}

/// Adds the character, or its escape.
fn push_escape(out: &mut String, character: char, in_property: bool) -> Result<(), AllocError>
    ensures { OnOk result (string_bytes out.new ≡ string_bytes out.old ++ encode_utf8_all (escaped_character in_property character)) }
{
    let escape = match character {
        '%' => "%25",
        '\r' => "%0D",
        '\n' => "%0A",
        ':' if in_property => "%3A",
        ',' if in_property => "%2C",
        _ => return out.push(character),
    };
    out.push_str(escape)
}
