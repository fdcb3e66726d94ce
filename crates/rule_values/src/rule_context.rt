//! What values are judged by.
use crate::defined::DefinedVariables;
use crate::indexed::IndexedSchema;

/// The schema whose types values are given for, and the variables that values may have.
#[derive(Clone, Copy)]
pub(crate) struct RuleContext<'a> {
    pub(crate) schema: &'a IndexedSchema<'a>,
    pub(crate) variables: &'a DefinedVariables<'a>,
}
