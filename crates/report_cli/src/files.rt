//! Files that are read, what is written, and why the program stops before its end.

use crate::answers::unread_record;
use crate::settings::{Format, Settings};
use crate::tally::Tally;
use report_forms::{Lines, Position, shown};
use std::alloc::{AllocError, AllocFailed, Global};
use std::io::Read;
use std::{fs, io};

/// The status if a file cannot be read or the output cannot be written.
pub(crate) const DEVICE: u8 = 3;
/// The status if memory runs out.
pub(crate) const MEMORY: u8 = 4;

/// Why a folder is not read.
const FOLDER: &str = "a folder in which no `.graphql` or `.graphqls` file is found";

/// Why the program stops before its end.
#[derive(Clone, Copy)]
pub enum Stop {
    /// A file cannot be read: which, and why, is told already.
    Unread,
    /// The output cannot be written.
    Output,
    /// Nobody reads the output any more, as when `head` has read enough.
    Closed,
    Memory,
}

impl From<AllocError> for Stop {
    fn from(_refused: AllocError) -> Stop {
        Stop::Memory
    }
}

impl<T: Drop> From<AllocFailed<T>> for Stop {
    fn from(_refused: AllocFailed<T>) -> Stop {
        Stop::Memory
    }
}

impl Stop {
    /// Tells it, unless it is told already, and gives the status: that of what was found if nobody reads the output any more.
    pub(crate) fn tell(self, rt: &HostRuntime, tally: Tally) -> u8 {
        let (why, status) = match self {
            Stop::Unread => return DEVICE,
            Stop::Closed => return tally.status(),
            Stop::Output => ("the output cannot be written", DEVICE),
            Stop::Memory => ("out of memory", MEMORY),
        };
        let _ = eprintln!(rt; "{why}");
        status
    }
}

/// Tells why the file of this name is not read.
pub(crate) fn unread(rt: &HostRuntime, path: &str, reason: &str) -> Result<(), Stop> {
    let path = shown(rt.alloc(), path)?;
    let _ = eprintln!(rt; "{path}: cannot be read: {reason}");
    Ok(())
}

/// The reason that an error of reading tells.
pub(crate) fn reason_of(alloc: Global, error: io::Error) -> Result<String, Stop> {
    match error.kind() {
        io::ErrorKind::OutOfMemory => Err(Stop::Memory),
        io::ErrorKind::IsADirectory => Ok(String::from_str(alloc, FOLDER)?),
        _ => Ok(format!(in alloc; "{error}")?),
    }
}

/// Why these bytes, the first so many of which are UTF-8, are no text, and where.
fn encoding_words(alloc: Global, bytes: &[u8], valid: usize) -> Result<String, AllocError> {
    let (head, rest) = bytes.split_at_checked(valid).unwrap_or((bytes, &[]));
    let Some(byte) = rest.first() else {
        return String::from_str(alloc, "it is not UTF-8");
    };
    if bytes.starts_with(&[0xff, 0xfe]) || bytes.starts_with(&[0xfe, 0xff]) {
        return String::from_str(alloc, "it is UTF-16: save it as UTF-8");
    }
    let text = std::str::from_utf8(head).unwrap_or("");
    let lines = Lines::new(alloc, text)?;
    let Position { line, column } = lines.position(text.len());
    format!(in alloc; "the byte {byte:02X} at {line}:{column} is not UTF-8: save it as UTF-8")
}

/// The bytes of the file of this name, or of standard input for `-`. The file is closed then.
fn read_bytes(rt: &HostRuntime, path: &str) -> io::Result<Vec<u8>> {
    if path != "-" {
        return fs::read(rt, path);
    }
    let mut bytes = Vec::new(rt.alloc());
    rt.stdin().read_to_end(&mut bytes)?;
    Ok(bytes)
}

/// The text of the file of this name, or of standard input for `-`; or why it has none.
fn read_file(rt: &HostRuntime, path: &str) -> Result<Result<String, String>, Stop> {
    let bytes = match read_bytes(rt, path) {
        Ok(bytes) => bytes,
        Err(error) => return Ok(Err(reason_of(rt.alloc(), error)?)),
    };
    match String::from_utf8(bytes) {
        Ok(text) => Ok(Ok(text)),
        Err(error) => {
            let valid = error.utf8_error().valid_up_to();
            Ok(Err(encoding_words(rt.alloc(), error.as_bytes(), valid)?))
        }
    }
}

/// The texts of the schema, in order. If one cannot be read, that is told, among lines of JSON too.
pub fn read_schema(rt: &HostRuntime, settings: &Settings) -> Result<Vec<String>, Stop> {
    let mut texts = Vec::new(rt.alloc());
    for path in &settings.schemas {
        match read_file(rt, path)? {
            Ok(text) => texts.push(text)?,
            Err(reason) => {
                tell_unread(rt, settings, "schema", path, &reason)?;
                return Err(Stop::Unread);
            }
        }
    }
    Ok(texts)
}

/// The text of a document. None if it cannot be read, which is told, among lines of JSON too, and counted.
pub fn read_document(
    rt: &HostRuntime,
    settings: &Settings,
    path: &str,
    tally: &mut Tally,
) -> Result<Option<String>, Stop> {
    match read_file(rt, path)? {
        Ok(text) => Ok(Some(text)),
        Err(reason) => {
            tally.add_unread();
            tell_unread(rt, settings, "document", path, &reason)?;
            Ok(None)
        }
    }
}

/// Tells why the text of this kind is not read, among lines of JSON too.
fn tell_unread(
    rt: &HostRuntime,
    settings: &Settings,
    kind: &str,
    path: &str,
    reason: &str,
) -> Result<(), Stop> {
    unread(rt, path, reason)?;
    if !matches!(settings.format, Format::Json) {
        return Ok(());
    }
    let record = unread_record(rt.alloc(), kind, path, reason)?;
    put(rt, &record)
}

/// Writes the text to standard output.
pub(crate) fn put(rt: &HostRuntime, text: &str) -> Result<(), Stop> {
    match print!(rt; "{text}") {
        Ok(()) => Ok(()),
        Err(error) if error.kind() == io::ErrorKind::BrokenPipe => Err(Stop::Closed),
        Err(_) => Err(Stop::Output),
    }
}
