//! Nodes with their origins.
ghost use Rattle.std.specs.Prelude.{◌≡◌};
ghost use Rattle.std.specs.Option.{option_copied};
ghost use Rattle.tree_literals.specs.in_names.Node.{content, place};
ghost use Rattle.schema_components.specs.Given.{extension_id};

use crate::extension::ExtensionId;
use std::alloc::AllocError;
use std::ops::Deref;
use tree_literals::Node;

/// The origin of a component: the definition, or one of its extensions.
#[derive(Clone, Copy, PartialEq, Eq, Hash)]
pub enum ComponentOrigin {
    Definition,
    Extension(ExtensionId),
}

impl ComponentOrigin {
    /// The extension, if the origin is one.
    pub fn extension_id(&self) -> Option<&ExtensionId>
        ensures { option_copied result ≡ extension_id self.now }
    {
        match self {
            ComponentOrigin::Definition => None,
            ComponentOrigin::Extension(id) => Some(id),
        }
    }
}

/// A node and its origin. Equality and hash are those of the node.
#[derive_where(PartialEq, Eq, Hash; T)]
pub struct Component<T> {
    // Not compared: a schema says the same, however it is divided into extensions.
    #[derive_where(skip)]
    pub origin: ComponentOrigin,
    pub node: Node<T>,
}

impl<T: Drop> Drop for Component<T> {
    fn drop(self) {
        let Component { origin: _, node: _ } = self;
    }
}

impl<T> Component<T> {
    /// The node, with that origin.
    pub fn new(origin: ComponentOrigin, node: Node<T>) -> Component<T>
        ensures origin { result.origin ≡ origin }
        ensures node { result.node ≡ node }
    {
        Component { origin, node }
    }
}

impl<T> Deref for Component<T> {
    type Target = Node<T>;

    ghost deref_gives = { λ c n. n ≡ c.node };

    fn deref(&self) -> &Node<T>
        ensures { result.now ≡ self.now.node }
    {
        &self.node
    }
}

/// The same node, shared, with the same origin.
impl<T: Drop> Clone for Component<T> {
    ghost is_clone = { λ c copy. (copy.origin ≡ c.origin) × (content copy.node ≡ content c.node) × (place copy.node ≡ place c.node) };

    fn clone(&self) -> Result<Component<T>, AllocError> {
        Ok(Component {
            origin: self.origin,
            node: self.node.clone()?,
        })
    }
}
