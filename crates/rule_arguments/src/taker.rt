//! What takes arguments.
ghost use Rattle.std.specs.Prelude.{◌≡◌, IfOk};
ghost use Rattle.schema_coordinates.specs.CoordinateView.{schema_coordinate};
ghost use Rattle.rule_arguments.specs.Trees.{coordinate_of, argument_coordinate_of};

use graphql_names::{Name, Node, SourceSpan};
use rule_values::DefinedArguments;
use schema_coordinates::{
    DirectiveCoordinate, SchemaCoordinate, coordinate_of_argument, coordinate_of_attribute,
    coordinate_of_directive_argument,
};
use std::alloc::AllocError;
use tree_directives::Argument;

/// The name of what takes arguments: a directive, or a field of a type.
#[derive(Clone, Copy)]
pub enum TakerName<'a> {
    OfDirective(&'a Name),
    OfField(&'a Name, &'a Name),
}

/// What takes arguments: a use of a directive, or a field. `definition_location` is the place that is told of an argument
/// that is not defined.
#[derive(Clone, Copy)]
pub struct Taker<'a> {
    pub location: Option<SourceSpan>,
    pub given: &'a [Node<Argument>],
    pub definitions: &'a DefinedArguments<'a>,
    pub definition_location: Option<SourceSpan>,
    pub name: TakerName<'a>,
}

impl TakerName<'_> {
    /// Its coordinate.
    pub(crate) fn coordinate(self) -> Result<SchemaCoordinate, AllocError>
        ensures { IfOk result (λ c. schema_coordinate c ≡ coordinate_of self.entry) }
    {
        match self {
            TakerName::OfDirective(directive) => {
                Ok(SchemaCoordinate::Directive(DirectiveCoordinate {
                    directive: directive.clone()?,
                }))
            }
            TakerName::OfField(ty, field) => coordinate_of_attribute(ty, field),
        }
    }

    /// The coordinate of its argument of that name.
    pub(crate) fn argument_coordinate(self, argument: &Name) -> Result<SchemaCoordinate, AllocError>
        ensures { IfOk result (λ c. schema_coordinate c ≡ argument_coordinate_of self.entry argument.now.text) }
    {
        match self {
            TakerName::OfDirective(directive) => {
                coordinate_of_directive_argument(directive, argument)
            }
            TakerName::OfField(ty, field) => coordinate_of_argument(ty, field, argument),
        }
    }
}
