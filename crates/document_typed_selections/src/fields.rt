//! The fields of a selection set, given in order.
ghost use Rattle.std.specs.Iterator.{YieldsFirstRef, item_count};
ghost use Rattle.document_typed_selections.specs.OwnFields.{left_fields};

use crate::selection::{Field, Selection};
use graphql_names::Node;

/// The fields directly in a selection set that are still to be yielded, in order.
#[derive(Drop)]
pub struct Fields<'a> {
    pub(crate) rest: &'a [Selection],
}

impl<'a> Iterator for Fields<'a> {
    type Item = &'a Node<Field>;

    ghost next_gives = { YieldsFirstRef left_fields };

    ghost remaining = { item_count left_fields };

    #[tactic(auto, using(crate::proofs::TypedTrees::field_node_rules))]
    fn next(&mut self) -> Option<&'a Node<Field>> {
        while let Some((first, others)) = self.rest.split_first() {
            self.rest = others;
            if let Selection::Field(field) = first {
                return Some(field);
            }
        }
        None
    }
}
