//! How a checker answers.

ghost use Rattle.std.specs.Prelude.{◌≡◌, false};
ghost use Rattle.graphql_names.specs.Device.{device_failed};
ghost use Rattle.checker_calls.specs.Devices.{HaveNotFailed};

use crate::asked::Asked;
use crate::told::Told;
use checker_calls::{CheckError, Outcome, RunFault, Verdict};
use graphql_names::{Cut, Device};

/// The texts that a call is given, and the terms on which they are judged.
#[derive(Clone, Copy)]
pub struct Texts<'a> {
    pub schemas: &'a [&'a str],
    pub document: &'a str,
    /// Further documents over the same schema.
    pub following: &'a [&'a str],
    pub asked: Asked,
}

/// How a checker answers to texts. It has where memory comes from.
pub trait Checks {
    /// The answer of `check_texts`.
    fn check_texts(&self, texts: Texts<'_>) -> Result<Verdict, CheckError>;

    /// Adds the answers of `Checker::new`, `add_schema`, `finish`, then of `check` for each further document, while what it
    /// gives for the first document is kept, and then what that tells: both `written`, or what it lends.
    fn judge(&self, texts: Texts<'_>, told: &mut Told);

    /// The answer of `run`.
    fn run(
        &self,
        schemas: &mut [Device<Cut<&[u8]>>],
        document: &mut Device<Cut<&[u8]>>,
        asked: Asked,
        out: &mut Device<Cut<&mut Vec<u8>>>,
    ) -> Result<Outcome, RunFault>
        requires schemas_run { HaveNotFailed schemas.old }
        requires document_runs { device_failed document.old ≡ false }
        requires out_runs { device_failed out.old ≡ false };
}
