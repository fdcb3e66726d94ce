//! What the rules on uses are given.

use rule_values::{DefinedVariables, IndexedSchema};

/// The schema by which uses are judged, and the variables that are defined for them.
#[derive(Clone, Copy)]
pub(crate) struct RuleContext<'a> {
    pub(crate) schema: &'a IndexedSchema<'a>,
    pub(crate) variables: &'a DefinedVariables<'a>,
}
