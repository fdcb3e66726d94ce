//! The schema definition.
ghost use Rattle.std.specs.Prelude.{◌≡◌, IfOk};
ghost use Rattle.std.specs.Option.{option_map};
ghost use Rattle.schema_types.specs.Origins.{schema_origins, extensions_in, origin_of};
ghost use Rattle.schema_types.specs.OriginsLeft.{left_origins, left_roots, roots_in};

use crate::origins::Origins;
use crate::roots::RootOperations;
use graphql_names::NodeStr;
use indexmap::IndexSet;
use schema_components::{ComponentName, ComponentOrigin, DirectiveList, ExtensionId};
use std::alloc::{AllocError, Global};

/// The description, directives and roots of a schema (section 3.3). Equality ignores places and origins.
#[derive(PartialEq, Eq)]
pub struct SchemaDefinition {
    pub description: Option<NodeStr>,
    pub directives: DirectiveList,
    pub query: Option<ComponentName>,
    pub mutation: Option<ComponentName>,
    pub subscription: Option<ComponentName>,
}

/// As for the types of each kind, this drop is proved here once, and not again in each crate above.
impl Drop for SchemaDefinition {
    fn drop(self) {
        let SchemaDefinition {
            description: _,
            directives: _,
            query: _,
            mutation: _,
            subscription: _,
        } = self;
    }
}

impl SchemaDefinition {
    /// The roots that the schema has, in the order query, mutation, subscription.
    pub fn iter_root_operations(&self) -> RootOperations<'_>
        ensures { left_roots result ≡ roots_in self.now }
    {
        RootOperations {
            query: self.query.as_ref(),
            mutation: self.mutation.as_ref(),
            subscription: self.subscription.as_ref(),
        }
    }

    /// The origin of each component: applied directives, then the roots.
    pub fn iter_origins(&self) -> Origins<'_>
        ensures { left_origins result ≡ schema_origins self.now }
    {
        Origins {
            directives: self.directives.0.as_slice(),
            query: origin_of(&self.query),
            mutation: origin_of(&self.mutation),
            subscription: origin_of(&self.subscription),
            names: &[],
            fields: &[],
            values: &[],
            inputs: &[],
        }
    }

    /// The extensions that gave a component, in the order of first appearance.
    pub fn extensions(&self, alloc: Global) -> Result<IndexSet<ExtensionId>, AllocError>
        ensures { IfOk result (λ s. s.keys ≡ extensions_in (schema_origins self.now)) }
    {
        self.iter_origins().extensions(alloc)
    }
}

/// The origin of a root, if there is one.
fn origin_of(root: &Option<ComponentName>) -> Option<ComponentOrigin>
    ensures { result ≡ option_map origin_of root.now }
{
    match root {
        None => None,
        Some(name) => Some(name.origin),
    }
}
