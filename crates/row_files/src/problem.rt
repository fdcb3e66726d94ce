//! Why rows are not judged.

use std::alloc::{AllocError, AllocFailed};

/// Why rows are not judged.
#[derive(Clone, Copy)]
pub enum Problem {
    /// Memory ran out.
    Memory,
    /// A file cannot be read.
    Device,
    /// A row file is not of the form, at this line, counted from 1.
    Malformed { line: usize, what: &'static str },
}

impl Problem {
    /// The problem, in words.
    pub fn what(self) -> &'static str {
        match self {
            Problem::Memory => "out of memory",
            Problem::Device => "the file cannot be read",
            Problem::Malformed { what, .. } => what,
        }
    }

    /// The line of the row file, or 0.
    pub fn line(self) -> usize {
        match self {
            Problem::Malformed { line, .. } => line,
            _ => 0,
        }
    }
}

impl From<AllocError> for Problem {
    fn from(_refused: AllocError) -> Problem {
        Problem::Memory
    }
}

impl<T: Drop> From<AllocFailed<T>> for Problem {
    fn from(_refused: AllocFailed<T>) -> Problem {
        Problem::Memory
    }
}
