//! Whole documents, and selection sets by themselves, under a schema.
ghost use Rattle.std.specs.Prelude.{◌≡◌, [], None};
ghost use Rattle.document_typed_operations.specs.TypedDocument.{typed_document_tree};

use crate::operation::Fragment;
use crate::operation_map::OperationMap;
use document_typed_selections::{SelectionSet, SourceFile};
use graphql_names::{FileId, Name, Node};
use indexmap::IndexMap;
use std::alloc::Global;

/// Fragments under their names, in order.
pub type FragmentMap = IndexMap<Name, Node<Fragment>>;

/// A document under a schema (section 2.2): its operations and its fragments, and the texts that it was read from, by the
/// numbers of their files. Equality ignores these texts, places and the order of what is named.
#[derive_where(PartialEq, Eq)]
pub struct ExecutableDocument {
    #[derive_where(skip)]
    pub sources: IndexMap<FileId, SourceFile>,
    pub operations: OperationMap,
    pub fragments: FragmentMap,
}

// Not derived: a derived drop is proved again in each crate that drops one.
impl Drop for ExecutableDocument {
    fn drop(self) {
        let ExecutableDocument {
            sources: _,
            operations: _,
            fragments: _,
        } = self;
    }
}

/// A selection set by itself, and the texts that it was read from, by the numbers of their files. Equality ignores these
/// texts and places.
#[derive_where(PartialEq, Eq)]
pub struct FieldSet {
    #[derive_where(skip)]
    pub sources: IndexMap<FileId, SourceFile>,
    pub selection_set: SelectionSet,
}

// Not derived: a derived drop is proved again in each crate that drops one.
impl Drop for FieldSet {
    fn drop(self) {
        let FieldSet {
            sources: _,
            selection_set: _,
        } = self;
    }
}

impl ExecutableDocument {
    /// A document without sources, operations and fragments. It takes no memory.
    pub fn new(alloc: Global) -> ExecutableDocument
        ensures tree { typed_document_tree result ≡ record { anonymous = None; named = []; fragments = [] } }
        ensures sources { result.sources.entries ≡ [] }
    {
        ExecutableDocument {
            sources: IndexMap::new(alloc),
            operations: OperationMap::new(alloc),
            fragments: IndexMap::new(alloc),
        }
    }
}
