//! The lines of a text.

ghost use Rattle.std.specs.Prelude.{◌≡◌, ℕ, ◌+◌, ◌<◌, ◌≤◌, ◌↔◌, true, false, nat_le, List, length, IfOk, IfSome, IfNone, IsSome};
ghost use Rattle.std.specs.List.Sorted.{IsPartitionedBy, IsPartitionPoint};
ghost use Rattle.report_forms.specs.Ends.{ends_line, how_many};
ghost use Rattle.report_forms.specs.Positions.{IsLineStart, IsPosition, IsFirstPlace, IsColumn, IsFirstInLine};
ghost use Rattle.report_forms.specs.LineTexts.{IsNumberedStart, IsFirstLine, IsLineText};
ghost use Rattle.report_forms.specs.Starts.{IsIndexed};

use crate::ends::{characters_up_to, counts_of, ends_character, ends_line};
use crate::position::Position;
use std::alloc::{AllocError, Global};
use std::marker::Model;

/// A text, with the places at which its lines begin and counts of its characters, so that a position is found in time logarithmic
/// in the lines, however long one is.
///
/// A contract sees it as the text.
pub struct Lines<'a> {
    text: &'a str,
    starts: Vec<usize>,
    counts: Vec<usize>,
}

impl Drop for Lines<'_> {
    fn drop(self) {
        let Lines {
            text: _,
            starts: _,
            counts: _,
        } = self;
    }
}

impl<'a> Model for Lines<'a> {
    ghost Value = { List ℕ };

    ghost view = { λ l. l.text.now };

    ghost invariant = { λ l. IsIndexed l.text.now l.starts.items l.counts.items };
}

impl<'a> Lines<'a> {
    /// The lines of the text.
    pub fn new(alloc: Global, text: &'a str) -> Result<Lines<'a>, AllocError>
        ensures { IfOk result (λ lines. lines ≡ text.now) }
    {
        let bytes = text.as_bytes();
        let counts = counts_of(alloc, bytes)?;
        let mut starts: Vec<usize> = vec![in alloc; 0]?;
        for last in 0..bytes.len() {
            if ends_line(bytes, last) {
                starts.push(last + 1)?;
            }
        }
        Ok(Lines {
            text,
            starts,
            counts,
        })
    }

    /// The text.
    pub fn text(&self) -> &'a str
        ensures { result.now ≡ self.now }
    {
        self.text
    }

    /// The position of the place with so many bytes before it. One past the end is at the end.
    pub fn position(&self, offset: usize) -> Position
        ensures { IsPosition self.now offset result }
    {
        let text = self.text.as_bytes();
        let place = offset.min(text.len());
        let line = self.starts.partition_point(|start| *start <= place);
        let start = self.starts[line - 1];
        let before = characters_up_to(text, &self.counts, start);
        let characters = characters_up_to(text, &self.counts, place);
        Position {
            line,
            column: characters - before + 1,
        }
    }

    /// The first place with this position: how many bytes of the text are before it. None if no place has it.
    pub fn offset(&self, position: Position) -> Option<usize>
        ensures found { IfSome result (λ place. IsFirstPlace self.now position place) }
        ensures none { IfNone result ((place : ℕ) → ¬ IsPosition self.now place position) }
    {
        let start = self.start_of(position.line)?;
        place_in_line(self.text.as_bytes(), start, position.column)
    }

    /// The text of the line of this number, without its line terminator. None if the text has no such line.
    pub fn line(&self, number: usize) -> Option<&'a str>
        ensures found { IsSome result ↔ ((0 < number) × (number ≤ 1 + how_many (ends_line self.now) 0 (length self.now))) }
        ensures text { IfSome result (λ line. IsLineText self.now number line.now) }
    {
        let start = self.start_of(number)?;
        let text = self.text();
        Some(before_terminator(&text[start..]))
    }

    /// Where the line of this number begins.
    fn start_of(&self, number: usize) -> Option<usize>
        ensures found { IsSome result ↔ ((0 < number) × (number ≤ 1 + how_many (ends_line self.now) 0 (length self.now))) }
        ensures start { IfSome result (λ start. IsNumberedStart self.now number start) }
    {
        if number == 0 || number > self.starts.len() {
            return None;
        }
        Some(self.starts[number - 1])
    }
}

/// The first place of this column in the line that begins at `start`.
fn place_in_line(text: &[u8], start: usize, column: usize) -> Option<usize>
    requires within { start ≤ length text.now }
    requires begins { IsLineStart text.now start start }
    ensures found { IfSome result (λ place. IsFirstInLine text.now start column place) }
    ensures none { IfNone result ((place : ℕ) → ¬ IsColumn text.now start column place) }
{
    let mut reached = 1usize;
    for last in start..text.len() {
        if reached == column {
            return Some(last);
        }
        if ends_line(text, last) {
            return None;
        }
        if ends_character(text, last) {
            reached += 1;
        }
    }
    if reached == column {
        Some(text.len())
    } else {
        None
    }
}

/// What is before the first line terminator, or the whole text if there is none.
pub(crate) fn before_terminator(text: &str) -> &str
    ensures { IsFirstLine text.now result.now }
{
    for (index, byte) in text.as_bytes().iter().enumerate() {
        if *byte == b'\n' || *byte == b'\r' {
            return &text[..index];
        }
    }
    text
}
