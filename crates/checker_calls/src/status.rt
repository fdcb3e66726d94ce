//! The status with which the program ends.

ghost use Rattle.std.specs.Prelude.{◌≡◌};
ghost use Rattle.checker_calls.specs.ExitStatus.{status_of};

use crate::run_fault::{Outcome, RunFault};

/// The status with which the program ends after a run: 0 accepted, 1 refused, 3 a reader that failed, a text
/// that is not UTF-8 or a writer that failed, 4 out of memory.
pub fn exit_status(answer: &Result<Outcome, RunFault>) -> u8
    ensures { result ≡ status_of answer.now }
{
    match answer {
        Ok(Outcome::Accepted) => 0,
        Ok(Outcome::Refused) => 1,
        Err(RunFault::Reader(_) | RunFault::NotUtf8(_) | RunFault::Writer(_)) => 3,
        Err(RunFault::Memory) => 4,
    }
}
