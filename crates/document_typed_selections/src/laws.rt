//! What equality means: exactly that the trees are the same apart from places.
ghost use Rattle.std.specs.Prelude.{◌≡◌, ◌↔◌, IsTrue, None};
ghost use Rattle.document_typed_selections.specs.TypedTree.{typed_selection_tree, typed_set_tree, unplaced_typed_selection, unplaced_typed_set};
ghost use Rattle.document_typed_selections.specs.TypedParts.{typed_field};

use crate::selection::{Field, Selection, SelectionSet};

/// Whether two selections are the same apart from places: the result of `==`.
pub fn equal_selections(a: &Selection, b: &Selection) -> bool
    ensures { IsTrue result ↔ (unplaced_typed_selection (typed_selection_tree a.now) ≡ unplaced_typed_selection (typed_selection_tree b.now)) }
{
    *a == *b
}

/// Whether two selection sets are the same apart from places: the result of `==`.
pub fn equal_selection_sets(a: &SelectionSet, b: &SelectionSet) -> bool
    ensures { IsTrue result ↔ (unplaced_typed_set (typed_set_tree a.now) ≡ unplaced_typed_set (typed_set_tree b.now)) }
{
    *a == *b
}

/// Whether two fields are the same apart from places: the result of `==`.
pub fn equal_fields(a: &Field, b: &Field) -> bool
    ensures { IsTrue result ↔ (unplaced_typed_selection (typed_field None a.now) ≡ unplaced_typed_selection (typed_field None b.now)) }
{
    *a == *b
}
