//! The roots of a schema, in order.
ghost use Rattle.std.specs.Iterator.{YieldsFirstBy, item_count};
ghost use Rattle.schema_types.specs.OriginsLeft.{left_roots, lent_root};

use schema_components::{ComponentName, OperationType};

/// The roots that are left, in the order query, mutation, subscription.
#[derive(Drop)]
pub struct RootOperations<'a> {
    pub(crate) query: Option<&'a ComponentName>,
    pub(crate) mutation: Option<&'a ComponentName>,
    pub(crate) subscription: Option<&'a ComponentName>,
}

impl<'a> Iterator for RootOperations<'a> {
    type Item = (OperationType, &'a ComponentName);

    ghost next_gives = { YieldsFirstBy lent_root left_roots };

    ghost remaining = { item_count left_roots };

    fn next(&mut self) -> Option<(OperationType, &'a ComponentName)> {
        if let Some(name) = self.query.take() {
            return Some((OperationType::Query, name));
        }
        if let Some(name) = self.mutation.take() {
            return Some((OperationType::Mutation, name));
        }
        let name = self.subscription.take()?;
        Some((OperationType::Subscription, name))
    }
}
