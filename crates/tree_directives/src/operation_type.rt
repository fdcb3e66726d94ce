//! The kinds of operations.
ghost use Rattle.std.specs.Prelude.{◌≡◌, ◌↔◌, IsTrue, Some};
ghost use Rattle.tree_directives.specs.OperationQueries.{operation_keyword, default_root_name, location_of_operation};

use crate::directive_location::DirectiveLocation;
use std::fmt;
use tree_literals::Sink;

/// The kind of an operation (section 2.3).
#[derive(Clone, Copy, PartialEq, Eq, Hash, Debug)]
pub enum OperationType {
    Query,
    Mutation,
    Subscription,
}

impl OperationType {
    /// The keyword: `query`, `mutation` or `subscription`.
    pub fn name(self) -> &'static str
        ensures { result.now ≡ operation_keyword self }
    {
        match self {
            OperationType::Query => "query",
            OperationType::Mutation => "mutation",
            OperationType::Subscription => "subscription",
        }
    }

    /// The default name of the root operation type (section 3.3.1).
    pub fn default_type_name(self) -> &'static str
        ensures { result.now ≡ default_root_name self }
    {
        match self {
            OperationType::Query => "Query",
            OperationType::Mutation => "Mutation",
            OperationType::Subscription => "Subscription",
        }
    }

    /// Whether it is a query.
    pub fn is_query(self) -> bool
        ensures { IsTrue result ↔ (self ≡ OperationType.Query) }
    {
        self == OperationType::Query
    }

    /// Whether it is a mutation.
    pub fn is_mutation(self) -> bool
        ensures { IsTrue result ↔ (self ≡ OperationType.Mutation) }
    {
        self == OperationType::Mutation
    }

    /// Whether it is a subscription.
    pub fn is_subscription(self) -> bool
        ensures { IsTrue result ↔ (self ≡ OperationType.Subscription) }
    {
        self == OperationType::Subscription
    }
}

impl fmt::Display for OperationType {
    ghost output = { λ o. Some (operation_keyword o) };

    fn fmt<W: fmt::Write>(&self, f: &mut fmt::Formatter<W>) -> fmt::Result {
        fmt::Display::fmt(self.name(), f)
    }
}

/// The location of directives of such an operation.
impl From<OperationType> for DirectiveLocation {
    ghost from_gives = { λ o l. l ≡ location_of_operation o };

    fn from(operation_type: OperationType) -> DirectiveLocation {
        match operation_type {
            OperationType::Query => DirectiveLocation::Query,
            OperationType::Mutation => DirectiveLocation::Mutation,
            OperationType::Subscription => DirectiveLocation::Subscription,
        }
    }
}

/// The keyword of an operation. Public for the printers of the crates above.
pub fn put_keyword<S: Sink>(sink: &mut S, operation: OperationType)
    ensures { S.puts sink.old (operation_keyword operation) sink.new }
{
    sink.put(match operation {
        OperationType::Query => "query",
        OperationType::Mutation => "mutation",
        OperationType::Subscription => "subscription",
    });
}
