//! Settings, and how they are read.

ghost use Rattle.std.specs.Prelude.{◌≡◌, ◌<◌, ◌≤◌, ℕ, List, [], IfOk, None, Some, length, map, codes, string_bytes, option_map, unwrap_or};
ghost use Rattle.std.specs.Str.Parse.{digits_value, without_leading_plus};
ghost use Rattle.clap.specs.Words.{IsUnsignedIn, first_value, found_of, matched_of, one_text, raw_values};
ghost use Rattle.checker_calls.specs.Layouts.{prefix_of};
ghost use Rattle.checker_calls.specs.ReadSettings.{prefix_named, IsTakenFrom, ReadsAs, IsProgramLayout};

use crate::command::program_command;
use crate::layout::Layout;
use clap::{ArgMatches, Error};
use std::alloc::{AllocError, Global};

/// How many brackets may be open at once, if the words do not say.
const NESTING: usize = 500;

/// What the program's words ask for.
pub struct Settings {
    /// The document's path.
    pub document: String,
    /// The paths of the schemas, in order.
    pub schemas: Vec<String>,
    /// How accepted texts are laid out.
    pub layout: Layout<'static>,
    /// How many brackets may be open at once.
    pub nesting: usize,
}

// Not derived: a derived drop is proved again in each crate that drops one.
impl Drop for Settings {
    fn drop(self) {
        let Settings {
            document: _,
            schemas: _,
            layout: _,
            nesting: _,
        } = self;
    }
}

impl Settings {
    /// Reads the words, the program's name first: `[--indent line|two|four|tab] [--nesting N] DOCUMENT SCHEMA...`.
    /// Without options texts are written on one line, and 500 brackets may be open; N is from 1 to 1000.
    ///
    /// An error has the text for the user: a fault of the words, what `--help` shows, or that memory ran out.
    pub fn from_words(alloc: Global, words: &[String]) -> Result<Settings, Error>
        ensures read { ReadsAs (map string_bytes words.now) result }
        ensures schemas { IfOk result (λ s. 0 < length s.schemas.items) }
        ensures layout { IfOk result (λ s. IsProgramLayout s.layout) }
        ensures nesting { IfOk result (λ s. (1 ≤ s.nesting) × (s.nesting ≤ 1000)) }
    {
        let matches = program_command(alloc)?.try_get_matches_from(words)?;
        Ok(read_settings(alloc, &matches)?)
    }
}

/// The settings that the matches have.
fn read_settings(alloc: Global, matches: &ArgMatches<'_>) -> Result<Settings, AllocError>
    ensures { IfOk result (IsTakenFrom (found_of matches.now)) }
{
    // The document is required, so `clap` gives one: the empty path is never taken.
    Ok(Settings {
        document: String::from_str(alloc, matches.get_str("DOCUMENT").unwrap_or(""))?,
        schemas: read_schemas(alloc, matches)?,
        layout: layout_named(matches.get_str("indent")),
        nesting: read_nesting(matches),
    })
}

/// The paths of the schemas.
fn read_schemas(alloc: Global, matches: &ArgMatches<'_>) -> Result<Vec<String>, AllocError>
    ensures { IfOk result (λ v. map string_bytes v.items ≡ unwrap_or (option_map raw_values (matched_of (found_of matches.now) (codes "SCHEMA"))) []) }
{
    let mut paths = Vec::new(alloc);
    for path in matches.get_strs("SCHEMA").unwrap_or(&[]) {
        paths.push(String::from_str(alloc, path)?)?;
    }
    Ok(paths)
}

/// The layout of this name; all on one line if there is none.
fn layout_named(name: Option<&str>) -> Layout<'static>
    ensures { prefix_of result ≡ prefix_named (option_map (λ n. n.now) name.entry) }
{
    match name {
        Some("two") => Layout::Indented("  "),
        Some("four") => Layout::Indented("    "),
        Some("tab") => Layout::Indented("\t"),
        // No option, or `line`: other words are refused by `clap`.
        _ => Layout::OneLine,
    }
}

/// How many brackets may be open at once.
fn read_nesting(matches: &ArgMatches<'_>) -> usize
    ensures default { one_text (found_of matches.now) (codes "nesting") ≡ None → result ≡ 500 }
    ensures given { (text : List ℕ) → one_text (found_of matches.now) (codes "nesting") ≡ Some text → IsUnsignedIn 1 1000 text
        → result ≡ digits_value 10 (without_leading_plus text) }
{
    matches.get_one::<usize>("nesting").unwrap_or(NESTING)
}
