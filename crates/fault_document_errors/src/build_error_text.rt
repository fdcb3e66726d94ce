//! The text of what breaks a rule of documents.
ghost use Rattle.std.specs.Prelude.{◌≡◌, Some};
ghost use Rattle.fault_document_errors.specs.DocumentBreachView.{document_breach_of};
ghost use Rattle.fault_document_errors.specs.DocumentWords.{worded};
ghost use Rattle.fault_document_errors.specs.DocumentMessages.{document_message};

use crate::build_error::BuildError;
use graphql_names::Name;
use std::fmt;
use tree_operations::OperationType;

/// A text with some gaps, and what fills them.
#[derive(Clone, Copy)]
enum Words<'a> {
    Whole(&'static str),
    Named(&'static str, &'a Name, &'static str),
    Operation(&'static str, OperationType, &'static str),
    TwoNames(&'static str, &'a Name, &'static str, &'a Name, &'static str),
}

impl fmt::Display for BuildError {
    ghost output = { λ e. Some (document_message (document_breach_of e)) };

    fn fmt<W: fmt::Write>(&self, f: &mut fmt::Formatter<W>) -> fmt::Result {
        // One `write!` for each form of words, and not one in each arm of the variants.
        match words_of(self) {
            Words::Whole(text) => fmt::Display::fmt(text, f),
            Words::Named(front, name, back) => write!(f, "{front}{name}{back}"),
            Words::Operation(front, operation, back) => write!(f, "{front}{operation}{back}"),
            Words::TwoNames(front, first, middle, second, back) => {
                write!(f, "{front}{first}{middle}{second}{back}")
            }
        }
    }
}

/// The words of each variant, and what fills their gaps.
fn words_of(error: &BuildError) -> Words<'_>
    ensures { worded result ≡ document_message (document_breach_of error.now) }
{
    match error {
        BuildError::TypeSystemDefinition => {
            Words::Whole("a document must not hold a type system definition")
        }
        BuildError::AmbiguousAnonymousOperation => {
            Words::Whole("an anonymous operation must stand alone")
        }
        BuildError::OperationNameCollision { name } | BuildError::FragmentNameCollision { name } =>
            { Words::Named("`", name, "` is defined more than once") }
        BuildError::UndefinedRootOperation { operation_type } => {
            Words::Operation("the schema has no ", *operation_type, " root")
        }
        BuildError::UndefinedTypeInNamedFragmentTypeCondition { type_name }
        | BuildError::UndefinedTypeInInlineFragmentTypeCondition { type_name } => {
            Words::Named("the type condition `", type_name, "` is not defined")
        }
        BuildError::SubselectionOnScalarType { type_name } => {
            Words::Named("`", type_name, "` has no fields to select")
        }
        BuildError::SubselectionOnEnumType { type_name } => {
            Words::Named("`", type_name, "` has no fields to select")
        }
        BuildError::UndefinedField {
            type_name,
            field_name,
        } => Words::TwoNames("`", type_name, "` has no field `", field_name, "`"),
        BuildError::ConflictingFieldName(fields) => {
            Words::Named("`", &fields.alias, "` is selected with different fields")
        }
        BuildError::ConflictingFieldArgument(fields) => {
            Words::Named("`", &fields.alias, "` is selected with different arguments")
        }
        BuildError::ConflictingFieldType(fields) => {
            Words::Named("`", &fields.alias, "` is selected with different types")
        }
        BuildError::SubscriptionUsesMultipleFields { .. } => {
            Words::Whole("a subscription must have one root field")
        }
        BuildError::SubscriptionUsesIntrospection { field, .. } => {
            Words::Named("a subscription must not select `", field, "` at its root")
        }
        BuildError::SubscriptionUsesConditionalSelection { .. } => {
            Words::Whole("a subscription must not use @skip or @include at its root")
        }
        BuildError::DeferLabelMustNotBeVariable => {
            Words::Whole("a label of @defer must not be a variable")
        }
        BuildError::DuplicateDeferLabel { .. } => {
            Words::Whole("the label is used more than once")
        }
        BuildError::DeferOnRootMutationOrSubscriptionField { operation_type } => {
            Words::Operation(
                "@defer must not stand at the root of a ",
                *operation_type,
                "",
            )
        }
        BuildError::DeferInSubscriptionMustBeConditional => {
            Words::Whole("@defer in a subscription must be conditional")
        }
    }
}
