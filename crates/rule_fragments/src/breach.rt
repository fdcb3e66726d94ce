//! What breaks a rule.

use fault_document_errors::BuildError;
use graphql_names::SourceSpan;

/// What breaks a rule, and where.
pub(crate) type Breach = (Option<SourceSpan>, BuildError);
