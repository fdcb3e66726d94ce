//! What a call that judges texts gives.

use thiserror::Error;
use verdict_definitions::DiagnosticList;

/// Whether texts are accepted.
#[derive(Drop)]
pub enum Verdict {
    /// They are read, and every rule holds.
    Accepted,
    /// What is wrong; the list is never empty.
    Refused(DiagnosticList),
}

/// Why there is no verdict.
#[derive(Clone, Copy, Debug, PartialEq, Eq, Error)]
pub enum CheckError {
    /// Memory ran out.
    #[error("out of memory")]
    Memory,
}
