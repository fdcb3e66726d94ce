//! Settings, and how they are read.

ghost use Rattle.std.specs.Prelude.{◌≡◌};
ghost use Rattle.report_cli.specs.Counts.{counted_at, denied_at};

use crate::command::program_command;
use clap::{ArgMatches, Error};
use std::alloc::{AllocError, Global};

/// How many brackets may be open at once, if the words do not say.
const NESTING: usize = 500;

/// The form in which a fault is told.
#[derive(Clone, Copy)]
pub enum Format {
    Text,
    /// `Text` in colours.
    Coloured,
    Short,
    Json,
    Github,
    /// A log of SARIF 2.1.0.
    Sarif,
}

/// When the form `Text` has colours.
#[derive(Clone, Copy)]
pub enum Color {
    /// If people read it, and do not ask for none.
    Auto,
    Always,
    Never,
}

/// What is done about warnings.
#[derive(Clone, Copy)]
pub enum LintLevel {
    /// They are not told.
    Allow,
    Warn,
    /// They are told, and the status is that of faults.
    Deny,
}

impl LintLevel {
    /// So many warnings, if they are told.
    pub(crate) fn counted(self, warnings: usize) -> Option<usize>
        ensures { result ≡ counted_at self warnings }
    {
        match self {
            LintLevel::Allow => None,
            LintLevel::Warn | LintLevel::Deny => Some(warnings),
        }
    }

    /// So many warnings, if they are denied; else none.
    pub(crate) fn denied(self, warnings: usize) -> usize
        ensures { result ≡ denied_at self warnings }
    {
        match self {
            LintLevel::Allow | LintLevel::Warn => 0,
            LintLevel::Deny => warnings,
        }
    }
}

/// What the program's words ask for.
pub struct Settings {
    /// How faults are told.
    pub format: Format,
    /// When there are colours.
    pub color: Color,
    /// What is done about warnings.
    pub lints: LintLevel,
    /// How many brackets may be open at once.
    pub nesting: usize,
    /// How many faults are told of the schema, and how many faults or warnings of each document.
    pub max_faults: usize,
    /// The paths of the schema's texts, in order.
    pub schemas: Vec<String>,
    /// The paths of the documents, in order.
    pub documents: Vec<String>,
    /// Whether documents come as lines of standard input.
    pub batch: bool,
    /// Whether counts and notes are left out.
    pub quiet: bool,
}

impl Drop for Settings {
    fn drop(self) {
        let Settings {
            format: _,
            color: _,
            lints: _,
            nesting: _,
            max_faults: _,
            schemas: _,
            documents: _,
            batch: _,
            quiet: _,
        } = self;
    }
}

impl Settings {
    /// Reads the words, the program's name first: `[--format text|short|json|github|sarif] [--color auto|always|never] [--warn]
    /// [--deny warnings] [--nesting N] [--max-faults N] --schema FILE [--schema FILE].. [--batch] [--quiet] [DOCUMENT..]`.
    ///
    /// An error has the text for the user: a fault of the words, what `--help` or `--version` shows, or out of memory.
    pub fn from_words(alloc: Global, words: &[String]) -> Result<Settings, Error> {
        let matches = program_command(alloc)?.try_get_matches_from(words)?;
        Ok(settings_in(alloc, &matches)?)
    }
}

/// The settings that the matches have.
fn settings_in(alloc: Global, matches: &ArgMatches<'_>) -> Result<Settings, AllocError> {
    Ok(Settings {
        format: match matches.get_str("format") {
            Some("short") => Format::Short,
            Some("json") => Format::Json,
            Some("github") => Format::Github,
            Some("sarif") => Format::Sarif,
            _ => Format::Text,
        },
        color: match matches.get_str("color") {
            Some("always") => Color::Always,
            Some("never") => Color::Never,
            _ => Color::Auto,
        },
        lints: match matches.get_str("deny") {
            Some(_) => LintLevel::Deny,
            None if matches.get_flag("warn") => LintLevel::Warn,
            None => LintLevel::Allow,
        },
        nesting: matches.get_one::<usize>("nesting").unwrap_or(NESTING),
        max_faults: matches.get_one::<usize>("max-faults").unwrap_or(usize::MAX),
        schemas: paths(alloc, matches, "schema")?,
        documents: paths(alloc, matches, "DOCUMENT")?,
        batch: matches.get_flag("batch"),
        quiet: matches.get_flag("quiet"),
    })
}

/// The paths under this name.
fn paths(alloc: Global, matches: &ArgMatches<'_>, name: &str) -> Result<Vec<String>, AllocError> {
    let mut paths = Vec::new(alloc);
    for path in matches.get_strs(name).unwrap_or(&[]) {
        paths.push(String::from_str(alloc, path)?)?;
    }
    Ok(paths)
}
