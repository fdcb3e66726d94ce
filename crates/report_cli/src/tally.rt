//! How much was found.

ghost use Rattle.std.specs.Prelude.{◌≡◌, ◌+◌, ◌++◌, ◌<◌, true, IfOk, OnOk, string_bytes};
ghost use Rattle.report_cli.specs.Counts.{added, with_told, denied_at, ending, counts_words, schemas_words, warnings_words, words_of};

use crate::settings::LintLevel;
use report_forms::Severity;
use std::alloc::{AllocError, Global};

/// The status if all is accepted.
const ACCEPTED: u8 = 0;
/// The status if a document or the schema is refused, or a warning is told that is denied.
const REFUSED: u8 = 1;
/// The status if a document cannot be read.
const UNREAD: u8 = 3;

/// How much was found.
#[derive(Clone, Copy)]
pub struct Tally {
    /// How many documents were asked for.
    pub documents: usize,
    /// How many of them are refused.
    pub refused: usize,
    /// How many of them could not be read.
    pub unread: usize,
    /// How many schemas of a batch are refused.
    pub refused_schemas: usize,
    /// How many faults are told of them, or of schemas.
    pub faults: usize,
    /// How many warnings are told of the others, and of the schema.
    pub warnings: usize,
    /// What is done about warnings.
    pub lints: LintLevel,
    /// Whether the schema is refused, or is all that was asked for.
    pub is_of_schema: bool,
}

impl Tally {
    /// Nothing is found yet.
    pub fn new(lints: LintLevel, is_of_schema: bool) -> Tally
        ensures { result ≡ record { documents = 0; refused = 0; unread = 0; refused_schemas = 0; faults = 0; warnings = 0; lints = lints; is_of_schema = is_of_schema } }
    {
        Tally {
            documents: 0,
            refused: 0,
            unread: 0,
            refused_schemas: 0,
            faults: 0,
            warnings: 0,
            lints,
            is_of_schema,
        }
    }

    /// Adds a document that is accepted.
    pub fn add_accepted(&mut self)
        ensures { self.new ≡ record self.old { documents = added self.old.documents 1 } }
    {
        self.documents = self.documents.saturating_add(1);
    }

    /// Adds a document that is refused.
    pub fn add_refused(&mut self)
        ensures { self.new ≡ record self.old { documents = added self.old.documents 1; refused = added self.old.refused 1 } }
    {
        self.documents = self.documents.saturating_add(1);
        self.refused = self.refused.saturating_add(1);
    }

    /// Adds so many faults, or warnings, that are told.
    pub fn add_told(&mut self, severity: Severity, told: usize)
        ensures { self.new ≡ with_told severity self.old told }
    {
        match severity {
            Severity::Error => self.faults = self.faults.saturating_add(told),
            Severity::Warning => self.warnings = self.warnings.saturating_add(told),
        }
    }

    /// Adds a document that cannot be read.
    pub fn add_unread(&mut self)
        ensures { self.new ≡ record self.old { documents = added self.old.documents 1; unread = added self.old.unread 1 } }
    {
        self.documents = self.documents.saturating_add(1);
        self.unread = self.unread.saturating_add(1);
    }

    /// Adds a schema of a batch that is refused, after which another may be opened.
    pub fn add_refused_schema(&mut self)
        ensures { self.new ≡ record self.old { refused_schemas = added self.old.refused_schemas 1 } }
    {
        self.refused_schemas = self.refused_schemas.saturating_add(1);
    }

    /// Adds that the schema is refused, after which no document is judged.
    pub fn add_schema(&mut self)
        ensures { self.new ≡ record self.old { is_of_schema = true } }
    {
        self.is_of_schema = true;
    }

    /// The status of what was found: 3 if a document could not be read, else 1 if there is a fault, or a warning that is denied, else 0.
    pub fn status(self) -> u8
        ensures unread { 0 < self.unread → result ≡ 3 }
        ensures refused { self.unread ≡ 0 → 0 < self.faults + denied_at self.lints self.warnings → result ≡ 1 }
        ensures accepted { self.unread ≡ 0 → self.faults + denied_at self.lints self.warnings ≡ 0 → result ≡ 0 }
    {
        if self.unread > 0 {
            UNREAD
        } else if self.faults > 0 || self.lints.denied(self.warnings) > 0 {
            REFUSED
        } else {
            ACCEPTED
        }
    }

    /// How much was found, in words: `3 faults in 2 of 40 documents`, or `40 documents accepted`, and the
    /// refused schemas of a batch, the warnings and unread documents, if there are any.
    pub fn words(self, alloc: Global) -> Result<String, AllocError>
        ensures { IfOk result (λ words. string_bytes words ≡ words_of self) }
    {
        let mut words = String::new(alloc);
        self.push_counts(&mut words)?;
        self.push_schemas(&mut words)?;
        self.push_warnings(&mut words)?;
        if self.unread > 0 {
            write!(words, ", {} not read", self.unread)?;
        }
        Ok(words)
    }

    /// Adds how many faults there are, and what they are in; or what is accepted.
    fn push_counts(self, out: &mut String) -> Result<(), AllocError>
        ensures { OnOk result (string_bytes out.new ≡ string_bytes out.old ++ counts_words self) }
    {
        let Tally {
            documents,
            refused,
            unread,
            refused_schemas,
            faults,
            is_of_schema,
            ..
        } = self;
        let ending = plural(faults);
        if is_of_schema && faults == 0 {
            return out.push_str("schema accepted");
        }
        if is_of_schema {
            return write!(out, "{faults} fault{ending} in the schema");
        }
        if refused == 0 && refused_schemas == 0 {
            let accepted = documents.saturating_sub(unread);
            let ending = plural(accepted);
            return write!(out, "{accepted} document{ending} accepted");
        }
        let ending_of_documents = plural(documents);
        write!(
            out,
            "{faults} fault{ending} in {refused} of {documents} document{ending_of_documents}"
        )
    }

    /// Adds how many schemas have faults too, if one has.
    fn push_schemas(self, out: &mut String) -> Result<(), AllocError>
        ensures { OnOk result (string_bytes out.new ≡ string_bytes out.old ++ schemas_words self.refused_schemas) }
    {
        let schemas = self.refused_schemas;
        if schemas == 0 {
            return Ok(());
        }
        let ending = plural(schemas);
        write!(out, " and {schemas} schema{ending}")
    }

    /// Adds how many warnings there are, if there is one.
    fn push_warnings(self, out: &mut String) -> Result<(), AllocError>
        ensures { OnOk result (string_bytes out.new ≡ string_bytes out.old ++ warnings_words self.warnings) }
    {
        let warnings = self.warnings;
        if warnings == 0 {
            return Ok(());
        }
        let ending = plural(warnings);
        write!(out, ", {warnings} warning{ending}")
    }
}

/// The ending of a word after the number: `s`, but nothing after 1.
fn plural(number: usize) -> &'static str
    ensures { result.now ≡ ending number }
{
    if number == 1 { "" } else { "s" }
}
