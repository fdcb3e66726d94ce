//! How the text of others is shown.

ghost use Rattle.std.specs.Prelude.{◌≡◌, ◌++◌, IfOk, OnOk, IsTrue, ◌↔◌, string_bytes};
ghost use Rattle.std.specs.Str.{encode_utf8_all};
ghost use Rattle.report_forms.specs.Shown.{is_control, visible_character, shown_character, shown_text, HasNoControl};

use std::alloc::{AllocError, Global};

/// The text as it may be written to a terminal or a log: without control characters, so that a text of others can write
/// no more there than letters.
///
/// A tab is shown as four spaces, a control character of C0 and DELETE as its picture (U+2400 and on), and any other
/// control character as U+FFFD.
pub fn shown(alloc: Global, text: &str) -> Result<String, AllocError>
    ensures value { IfOk result (λ shown. string_bytes shown ≡ shown_text text.now) }
    ensures clean { IfOk result (λ shown. HasNoControl (string_bytes shown)) }
{
    let mut shown = String::new(alloc);
    for character in text.chars() {
        push_shown(&mut shown, character)?;
    }
    Ok(shown)
}

/// Adds what is shown of the character.
fn push_shown(shown: &mut String, character: char) -> Result<(), AllocError>
    ensures { OnOk result (string_bytes shown.new ≡ string_bytes shown.old ++ encode_utf8_all (shown_character character)) }
{
    if character == '\t' {
        shown.push_str("    ")
    } else {
        shown.push(visible_character(character))
    }
}

/// The character that is shown for one that is no tab.
fn visible_character(character: char) -> char
    ensures { result ≡ visible_character character }
{
    if !is_control(character) {
        character
    } else if character < '\x20' {
        char::from_u32(0x2400 + character as u32).unwrap_or(char::REPLACEMENT_CHARACTER)
    } else if character == '\x7f' {
        '\u{2421}'
    } else {
        char::REPLACEMENT_CHARACTER
    }
}

/// Whether it is a control character, one that turns the direction of what is written, or a separator of lines.
pub fn is_control(character: char) -> bool
    ensures { result ≡ is_control character }
{
    matches!(character,
        '\0'..='\x1f' | '\x7f'..='\u{9f}' | '\u{61c}' | '\u{200e}'..='\u{200f}' | '\u{2028}'..='\u{202e}' | '\u{2066}'..='\u{2069}')
}
