//! Fields in numbered sets.

use document_typed_selections::SelectionSet;
use rule_reach::FieldSelection;

/// A field of a set.
#[derive(Clone, Copy)]
pub struct Member<'doc> {
    pub selection: FieldSelection<'doc>,
    /// The number of what merging reads of the field.
    pub number: usize,
    /// The number of its response key.
    pub key: usize,
    /// The number of the type that it is selected on.
    pub parent: usize,
    /// The number of its name and arguments.
    pub call: usize,
    /// The number of its type.
    pub ty: usize,
    /// Whether the type that it is selected on is an interface or a union.
    pub is_shared: bool,
    /// The node of its set, unless that has no selections.
    pub below: Option<usize>,
}

/// A selection set of a document, by its fields and spreads.
pub struct SetNode<'doc> {
    pub set: &'doc SelectionSet,
    /// The number of what is written in it.
    pub number: usize,
    /// Its fields and those of its inline fragments, each number once.
    pub members: Vec<Member<'doc>>,
    /// The fragments that these spread, by index in the document, each once.
    pub spreads: Vec<usize>,
}

// Not derived: a derived drop is proved again in each crate that drops one.
impl Drop for SetNode<'_> {
    fn drop(self) {
        let SetNode {
            set: _,
            number: _,
            members: _,
            spreads: _,
        } = self;
    }
}
