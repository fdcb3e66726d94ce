//! What equality of each component means: it ignores origins and places.
ghost use Rattle.std.specs.Prelude.{◌≡◌, ◌↔◌, IsTrue};
ghost use Rattle.tree_literals.specs.in_names.Node.{content};
ghost use Rattle.schema_components.specs.Given.{number_of};
ghost use Rattle.schema_components.specs.Applied.{applied_tree, unplaced_applied};

use crate::component::Component;
use crate::component_name::ComponentName;
use crate::directive_list::DirectiveList;
use crate::extension::ExtensionId;

/// Whether two numbers of extensions are equal.
pub fn equal_extension_ids(a: &ExtensionId, b: &ExtensionId) -> bool
    ensures { IsTrue result ↔ (number_of a.now ≡ number_of b.now) }
{
    *a == *b
}

/// Whether two components are equal.
pub fn equal_components<T: PartialEq>(a: &Component<T>, b: &Component<T>) -> bool
    ensures { result ≡ T.eq (content a.now.node) (content b.now.node) }
{
    *a == *b
}

/// Whether two component names are equal.
#[tactic(auto, using(crate::proofs::ComponentEquality::equality))]
pub fn equal_component_names(a: &ComponentName, b: &ComponentName) -> bool
    ensures { IsTrue result ↔ (a.now.name.text ≡ b.now.name.text) }
{
    *a == *b
}

/// Whether two lists of applied directives are equal.
#[tactic(auto, using(crate::proofs::ComponentEquality::equality))]
pub fn equal_directive_lists(a: &DirectiveList, b: &DirectiveList) -> bool
    ensures { IsTrue result ↔ (unplaced_applied (applied_tree a.now) ≡ unplaced_applied (applied_tree b.now)) }
{
    *a == *b
}
