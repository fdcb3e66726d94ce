//! The two passes over lists of fields.

use rule_field_sets::Schema;

/// What a pass compares.
#[derive(Clone, Copy)]
pub enum Pass {
    /// The shapes of fields of one response key.
    Shapes,
    /// The names and arguments of fields that one object may have.
    Selections,
}

/// A pass, and the schema that the fields are typed under.
#[derive(Clone, Copy)]
pub(crate) struct Comparing<'a> {
    pub(crate) pass: Pass,
    pub(crate) schema: &'a Schema,
}
