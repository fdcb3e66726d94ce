//! Characters that no source text may have (section 2.1).
ghost use Rattle.std.specs.Prelude.{◌≡◌, ◌+◌, ◌<◌, ◌^◌, length, IfOk, OnOk};
ghost use Rattle.std.specs.Char.{encode_utf8};
ghost use Rattle.std.specs.Str.{chars};
ghost use Rattle.rule_definitions.specs.Room.{◌⊕◌};
ghost use Rattle.strict_documents.specs.Characters.{is_source_character, character_departure, character_departures, stretches_of, TellsCharacters};

use crate::departure::{Departure, DepartureKind};
use crate::telling::tell;
use graphql_names::{FileId, SourceSpan};
use std::alloc::{AllocError, Global};

/// SourceCharacter: whether a source text may have the character.
pub fn is_source_character(character: char) -> bool
    ensures { result ≡ is_source_character character }
{
    matches!(character, '\t' | '\n' | '\r' | ' '..='\u{ffff}')
}

/// Adds the departure of a character with so many bytes before it, if no source text may have it.
fn tell_character(
    file: FileId,
    offset: usize,
    character: char,
    departures: &mut Vec<Departure>,
) -> Result<(), AllocError>
    requires { offset + length (encode_utf8 character) < 2 ^ 64 }
    ensures { OnOk result (stretches_of departures.new ≡ stretches_of departures.old ⊕ character_departure file.0 offset character) }
{
    if is_source_character(character) {
        return Ok(());
    }
    let location = Some(SourceSpan {
        file_id: file,
        offset,
        length: character.len_utf8(),
    });
    let kind = DepartureKind::SourceCharacter;
    let name = None;
    tell(
        departures,
        Some(Departure {
            location,
            kind,
            name,
        }),
    )
}

/// Adds the characters of the text of that file that no source text may have, in order.
pub fn tell_characters(
    file: FileId,
    text: &str,
    departures: &mut Vec<Departure>,
) -> Result<(), AllocError>
    ensures { OnOk result (stretches_of departures.new ≡ stretches_of departures.old ⊕ character_departures file.0 0 (chars text.now)) }
{
    let mut offset = 0;
    for character in text.chars() {
        tell_character(file, offset, character, departures)?;
        offset += character.len_utf8();
    }
    Ok(())
}

/// The characters of the text of that file that no source text may have, in order, at most 1,000 of them. Fails if memory is
/// refused.
pub fn source_characters(
    alloc: Global,
    file: FileId,
    text: &str,
) -> Result<Vec<Departure>, AllocError>
    ensures { IfOk result (λ departures. TellsCharacters file.0 text.now departures) }
{
    let mut departures = Vec::new(alloc);
    tell_characters(file, text, &mut departures)?;
    Ok(departures)
}
