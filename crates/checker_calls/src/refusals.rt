//! What a refusal of texts is answered as.

ghost use Rattle.std.specs.Prelude.{◌≡◌, ◌≢◌};
ghost use Rattle.checker_calls.specs.declared.refusal.Refusal.TheVariants.{Failed};
ghost use Rattle.checker_calls.specs.Refusals.{refusal_verdict, IsAnswerOfRefusal};

use crate::answer::refused_parts;
use crate::parts::Parts;
use crate::refusal::Refusal;
use crate::run_fault::{Outcome, RunFault};
use crate::verdict::{CheckError, Verdict};
use std::alloc::Global;

/// The verdict that answers a refusal of texts, which is never `Failed`.
pub fn verdict_of(refusal: Refusal) -> Result<Verdict, CheckError>
    requires { refusal ≢ Failed }
    ensures { result ≡ refusal_verdict refusal }
{
    match refusal {
        Refusal::Faults(list) => Ok(Verdict::Refused(list)),
        Refusal::Memory => Err(CheckError::Memory),
        Refusal::Failed => unreachable!(),
    }
}

/// The outcome of a refusal of texts, which is never `Failed`, and the bytes that go with it.
pub fn refusal_answer(alloc: Global, refusal: Refusal) -> Result<(Outcome, Parts), RunFault>
    requires { refusal ≢ Failed }
    ensures { IsAnswerOfRefusal refusal result }
{
    match refusal {
        Refusal::Faults(list) => Ok((Outcome::Refused, refused_parts(alloc, &list)?)),
        Refusal::Memory => Err(RunFault::Memory),
        Refusal::Failed => unreachable!(),
    }
}
