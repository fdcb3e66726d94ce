//! The type that a value is given for.
use graphql_names::SourceSpan;
use tree_literals::Type;

/// The expected type, and the place of the reference to it. The type of items has the place of the whole reference.
#[derive(Clone, Copy)]
pub(crate) struct Wanted<'a> {
    pub(crate) ty: &'a Type,
    pub(crate) location: Option<SourceSpan>,
}
