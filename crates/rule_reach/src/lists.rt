//! The two lists of what is reached.

use document_typed_operations::Fragment;
use document_typed_selections::Selection;
use graphql_names::Node;
use tree_literals::NamedType;

/// What a selection set reaches in a document (sections 2.8 and 5.5.2): each selection with the name of the type of its
/// set, and each fragment that is spread, in the order of the walk.
pub struct Reach<'doc> {
    pub selections: Vec<(&'doc NamedType, &'doc Selection)>,
    pub fragments: Vec<&'doc Node<Fragment>>,
}

// Not derived: a derived drop is proved again in each crate that drops one.
impl Drop for Reach<'_> {
    fn drop(self) {
        let Reach {
            selections: _,
            fragments: _,
        } = self;
    }
}
