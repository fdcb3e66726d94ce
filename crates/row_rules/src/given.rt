//! What a row gives apart from its schema: types, locations, and the arguments of an operation's first field; and
//! which argument of the schema rows of usage ask for.

use graphql_names::{FileId, Node};
use row_building::{Schema, parse_type};
use row_files::{Case, Problem, read_of};
use std::alloc::Global;
use tree_directives::{Argument, DirectiveLocation, InputValueDefinition};
use tree_literals::Type;
use tree_operations::{OperationDefinition, Selection};

/// The type with this text.
pub(crate) fn type_of(alloc: Global, case: Case<'_>, text: &str) -> Result<Type, Problem> {
    read_of(case, parse_type(alloc, text, FileId(1), 500))
}

/// The row's type.
pub(crate) fn row_type(alloc: Global, case: Case<'_>) -> Result<Type, Problem> {
    type_of(alloc, case, case.row.needed("type")?.value)
}

/// The twenty locations (section 3.13).
const LOCATIONS: [DirectiveLocation; 20] = [
    DirectiveLocation::Query,
    DirectiveLocation::Mutation,
    DirectiveLocation::Subscription,
    DirectiveLocation::Field,
    DirectiveLocation::FragmentDefinition,
    DirectiveLocation::FragmentSpread,
    DirectiveLocation::InlineFragment,
    DirectiveLocation::VariableDefinition,
    DirectiveLocation::Schema,
    DirectiveLocation::Scalar,
    DirectiveLocation::Object,
    DirectiveLocation::FieldDefinition,
    DirectiveLocation::ArgumentDefinition,
    DirectiveLocation::Interface,
    DirectiveLocation::Union,
    DirectiveLocation::Enum,
    DirectiveLocation::EnumValue,
    DirectiveLocation::InputObject,
    DirectiveLocation::InputFieldDefinition,
    DirectiveLocation::DirectiveDefinition,
];

/// The row's location.
pub(crate) fn location_of(case: Case<'_>) -> Result<DirectiveLocation, Problem> {
    let field = case.row.needed("location")?;
    for location in &LOCATIONS {
        if location.name() == field.value {
            return Ok(*location);
        }
    }
    Err(field.problem("there is no such location"))
}

/// The first argument of the last directive that the schema defines.
pub(crate) fn asked_for<'a>(
    case: Case<'_>,
    schema: &'a Schema,
) -> Result<&'a Node<InputValueDefinition>, Problem> {
    if let Some(definition) = schema.directive_definitions.values().as_slice().last() {
        if let Some(argument) = definition.content().arguments.first() {
            return Ok(argument);
        }
    }
    Err(
        case.row
            .head
            .problem("the last directive of the schema has no argument"),
    )
}

/// The arguments of the operation's first selection, which is a field.
pub(crate) fn arguments_of<'a>(
    case: Case<'_>,
    operation: &'a OperationDefinition,
) -> Result<&'a [Node<Argument>], Problem> {
    match operation.selection_set.first() {
        Some(Selection::Field(field)) => Ok(field.content().arguments.as_slice()),
        _ => Err(case.row.head.problem("an input begins with no field")),
    }
}

/// The first argument of the operation's first field.
pub(crate) fn first_argument<'a>(
    case: Case<'_>,
    operation: &'a OperationDefinition,
) -> Result<&'a Node<Argument>, Problem> {
    match arguments_of(case, operation)?.first() {
        Some(argument) => Ok(argument),
        None => Err(
            case.row
                .head
                .problem("the field of an input has no argument"),
        ),
    }
}
