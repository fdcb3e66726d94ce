//! What equality means: exactly that the contents are the same.
ghost use Rattle.std.specs.Prelude.{◌≡◌, ◌↔◌, IsTrue};
ghost use Rattle.rule_reach.specs.Fields.{content_of};

use crate::field_selection::FieldSelection;

/// Whether two fields have equal contents, on types of one name: what `==` answers.
pub fn equal_field_selections(a: &FieldSelection<'_>, b: &FieldSelection<'_>) -> bool
    ensures { IsTrue result ↔ (content_of a.now ≡ content_of b.now) }
{
    *a == *b
}
