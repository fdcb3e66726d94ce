//! Faults and warnings.

ghost use Rattle.std.specs.Prelude.{◌≡◌};
ghost use Rattle.report_forms.specs.Forms.{severity_word};

/// Whether something is wrong.
#[derive(Clone, Copy)]
pub enum Severity {
    /// A rule is broken.
    Error,
    /// Every rule holds.
    Warning,
}

impl Severity {
    /// The word for it.
    pub(crate) fn word(self) -> &'static str
        ensures { result.now ≡ severity_word self }
    {
        match self {
            Severity::Error => "error",
            Severity::Warning => "warning",
        }
    }
}
