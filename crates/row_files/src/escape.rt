//! The bytes that a value stands for.

use crate::problem::Problem;
use crate::row_file::Field;

/// How far an escape has been read.
#[derive(Clone, Copy)]
enum Escape {
    /// No escape has begun.
    Outside,
    /// Its backslash.
    Begun,
    /// `\x`.
    Hexadecimal,
    /// `\x` and a digit, with its value.
    Digit(u8),
}

/// Adds the bytes that the value of a field stands for: `\n` is LF, `\r` CR, `\t` a tab, `\\` a backslash, `\xNN` the
/// byte of these two hexadecimal digits, and every other byte stands for itself.
pub(crate) fn push_bytes(field: Field<'_>, bytes: &mut Vec<u8>) -> Result<(), Problem> {
    let mut escape = Escape::Outside;
    for byte in field.value.bytes() {
        let Some((next, given)) = step(escape, byte) else {
            return Err(field.problem("an escape is wrong"));
        };
        escape = next;
        if let Some(given) = given {
            bytes.push(given)?;
        }
    }
    match escape {
        Escape::Outside => Ok(()),
        _ => Err(field.problem("an escape is cut")),
    }
}

/// Takes a byte: how far an escape has been read after it, and the byte that is complete with it.
fn step(escape: Escape, byte: u8) -> Option<(Escape, Option<u8>)> {
    match (escape, byte) {
        (Escape::Outside, b'\\') => Some((Escape::Begun, None)),
        (Escape::Outside, _) => Some((Escape::Outside, Some(byte))),
        (Escape::Begun, b'x') => Some((Escape::Hexadecimal, None)),
        (Escape::Begun, _) => Some((Escape::Outside, Some(letter(byte)?))),
        (Escape::Hexadecimal, _) => Some((Escape::Digit(digit(byte)?.wrapping_mul(16)), None)),
        (Escape::Digit(high), _) => Some((Escape::Outside, Some(high | digit(byte)?))),
    }
}

/// What a letter after a backslash stands for.
fn letter(byte: u8) -> Option<u8> {
    match byte {
        b'n' => Some(b'\n'),
        b'r' => Some(b'\r'),
        b't' => Some(b'\t'),
        b'\\' => Some(b'\\'),
        _ => None,
    }
}

/// The number of a hexadecimal digit.
fn digit(byte: u8) -> Option<u8> {
    match byte {
        b'0'..=b'9' => Some(byte - b'0'),
        b'A'..=b'F' => Some(byte - b'A' + 10),
        b'a'..=b'f' => Some(byte - b'a' + 10),
        _ => None,
    }
}
