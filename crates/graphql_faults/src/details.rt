//! What is wrong with texts, schemas and documents, and how it is told.
ghost use Rattle.std.specs.Prelude.{◌≡◌, Some};
ghost use Rattle.graphql_faults.specs.DetailsView.{details_of};
ghost use Rattle.graphql_faults.specs.DetailsMessages.{details_message, syntax_message};
ghost use Rattle.graphql_faults.specs.DetailsNames.{details_name};

use crate::rule_names::{document_rule_name, folding_rule_name, rule_name};
use fault_data::DiagnosticData;
use fault_document_errors::BuildError as DocumentError;
use graphql_read::SyntaxFaultKind;
use schema_fold::BuildError as SchemaError;
use std::fmt;

/// What is wrong with a text, with a schema or with a document.
pub enum Details {
    /// The text does not match the grammar (appendix B).
    Syntax(SyntaxFaultKind),
    /// More brackets are open at once than the limit allows.
    Nesting,
    /// No number is left for a text or an extension.
    Spent,
    /// What breaks a rule of folding.
    SchemaBuild(SchemaError),
    /// What breaks a rule of typing, of merging, of subscriptions or of `@defer`.
    DocumentBuild(DocumentError),
    /// What breaks a rule of schemas, directives, values or documents.
    Data(DiagnosticData),
    /// Selections or fields are nested too deeply.
    RecursionLimitError,
}

impl Drop for Details {
    fn drop(self) {
        match self {
            Details::Syntax(_)
            | Details::Nesting
            | Details::Spent
            | Details::SchemaBuild(_)
            | Details::DocumentBuild(_)
            | Details::Data(_)
            | Details::RecursionLimitError => {}
        }
    }
}

impl Details {
    /// The name of what is wrong: that of the rule that is broken, as `UnusedFragment`, which is the name of its variant.
    pub fn name(&self) -> &'static str
        ensures { result.now ≡ details_name (details_of self.now) }
    {
        match self {
            Details::Syntax(_) => "Syntax",
            Details::Nesting => "Nesting",
            Details::Spent => "Spent",
            Details::SchemaBuild(error) => folding_rule_name(error),
            Details::DocumentBuild(error) => document_rule_name(error),
            Details::Data(diagnostic) => rule_name(diagnostic),
            Details::RecursionLimitError => "RecursionLimitError",
        }
    }
}

impl fmt::Display for Details {
    ghost output = { λ d. Some (details_message (details_of d)) };

    fn fmt<W: fmt::Write>(&self, f: &mut fmt::Formatter<W>) -> fmt::Result {
        match self {
            Details::Syntax(kind) => fmt::Display::fmt(syntax_message(*kind), f),
            Details::Nesting => fmt::Display::fmt("too many open brackets", f),
            Details::Spent => fmt::Display::fmt("numbers are spent", f),
            Details::SchemaBuild(error) => fmt::Display::fmt(error, f),
            Details::DocumentBuild(error) => fmt::Display::fmt(error, f),
            Details::Data(diagnostic) => fmt::Display::fmt(diagnostic, f),
            Details::RecursionLimitError => fmt::Display::fmt("too much recursion", f),
        }
    }
}

/// What is wrong with the tokens of a text, in words.
fn syntax_message(kind: SyntaxFaultKind) -> &'static str
    ensures { result.now ≡ syntax_message kind }
{
    match kind {
        SyntaxFaultKind::NoToken => "no token starts here",
        SyntaxFaultKind::Unexpected => "unexpected token",
        SyntaxFaultKind::End => "unexpected end of text",
    }
}
