//! How the program begins, and how it ends.

use crate::answers::summary_record;
use crate::files::{DEVICE, MEMORY, Stop, put};
use crate::folders::files_of;
use crate::sarif::SARIF_TAIL;
use crate::settings::{Color, Format, LintLevel, Settings};
use crate::tally::Tally;
use clap::Error;
use clap::error::ErrorKind;
use std::env::VarError;
use std::io::IsTerminal;
use std::{env, io};

/// The status if the words are wrong.
const WRONG_WORDS: u8 = 2;

/// The program's words, its name first, or the status if one is not UTF-8, which is told.
pub fn read_words(rt: &HostRuntime) -> Result<Vec<String>, u8> {
    match std::env::args(rt) {
        Ok(args) => match args.collect(rt.alloc()) {
            Ok(words) => Ok(words),
            Err(_) => Err(MEMORY),
        },
        Err(error) if error.kind() == io::ErrorKind::OutOfMemory => Err(MEMORY),
        Err(_) => {
            let _ = eprintln!(rt; "error: a word is not UTF-8");
            Err(WRONG_WORDS)
        }
    }
}

/// What the words ask for, with files instead of folders. If they ask for nothing that the program does, or a folder cannot
/// be read, that is told, and the status is given.
pub fn read_settings(rt: &HostRuntime, words: &[String]) -> Result<Settings, u8> {
    let mut settings = match Settings::from_words(rt.alloc(), words) {
        Ok(settings) => settings,
        Err(error) => return Err(told_of_words(rt, &error)),
    };
    if matches!(settings.format, Format::Text) && has_colours(rt, settings.color) {
        settings.format = Format::Coloured;
    }
    match (
        files_of(rt, &settings.schemas),
        files_of(rt, &settings.documents),
    ) {
        (Ok(schemas), Ok(documents)) => {
            settings.schemas = schemas;
            settings.documents = documents;
            Ok(settings)
        }
        (Err(stop), _) | (_, Err(stop)) => Err(stop.tell(rt, Tally::new(LintLevel::Allow, false))),
    }
}

/// Whether there are colours: by themselves if standard output is a terminal and NO_COLOR is empty or not set (no-color.org).
fn has_colours(rt: &HostRuntime, color: Color) -> bool {
    match color {
        Color::Always => true,
        Color::Never => false,
        Color::Auto => {
            let is_asked_for = match env::var(rt, "NO_COLOR") {
                Ok(value) => value.is_empty(),
                Err(VarError::NotPresent) => true,
                Err(_) => false,
            };
            is_asked_for && rt.stdout().is_terminal()
        }
    }
}

/// Tells why there are no settings, and gives the status. The help goes to standard output, as it was asked for.
fn told_of_words(rt: &HostRuntime, error: &Error) -> u8 {
    if error.kind() == ErrorKind::OutOfMemory {
        return Stop::Memory.tell(rt, Tally::new(LintLevel::Allow, false));
    }
    let printed = error.print(rt);
    if error.use_stderr() {
        return WRONG_WORDS;
    }
    match printed {
        Ok(()) => 0,
        Err(_) => DEVICE,
    }
}

/// Tells how much was found, or why the program stopped before its end, and gives the status. If nobody reads the output any
/// more, nothing is told, and the status is that of what was found so far.
pub fn tell_end(rt: &HostRuntime, settings: &Settings, tally: Tally, done: Result<(), Stop>) -> u8 {
    if let Err(stop) = done {
        return stop.tell(rt, tally);
    }
    let (Ok(words), Ok(record)) = (tally.words(rt.alloc()), summary_record(rt.alloc(), tally))
    else {
        return Stop::Memory.tell(rt, tally);
    };
    let ended = match settings.format {
        Format::Json => put(rt, &record),
        Format::Sarif => put(rt, SARIF_TAIL),
        Format::Text | Format::Coloured | Format::Short | Format::Github => Ok(()),
    };
    if let Err(stop) = ended {
        return stop.tell(rt, tally);
    }
    if !settings.quiet {
        let _ = eprintln!(rt; "{words}");
    }
    tally.status()
}
