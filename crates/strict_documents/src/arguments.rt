//! Arguments that are given, to fields and to directives.
ghost use Rattle.std.specs.Prelude.{OnOk};
ghost use Rattle.strict_documents.specs.Given.{argument_departures_of, given_departures_of, directive_departures_of, directives_departures_of, field_departures_of, own_departures_of, selection_departures_of};
ghost use Rattle.strict_documents.specs.DepartureViews.{Tells};

use crate::departure::Departure;
use crate::location::{Location, Strictness};
use crate::values::tell_value;
use document_typed_selections::{Field, Selection};
use graphql_names::{Name, Node};
use rule_values::DefinedArguments;
use std::alloc::AllocError;
use tree_directives::{Argument, Directive};

/// Adds the departures of the value of an argument, judged by the first of these definitions that has its name.
fn tell_argument(
    strictness: &Strictness<'_>,
    definitions: &DefinedArguments<'_>,
    argument: &Node<Argument>,
    departures: &mut Vec<Departure>,
) -> Result<(), AllocError>
    ensures { OnOk result (Tells departures.old departures.new (argument_departures_of strictness.now definitions.now argument.now)) }
{
    let given = argument.content();
    match definitions.find(&given.name) {
        None => Ok(()),
        Some(definition) => {
            let location = Location::of_argument(definition.content());
            tell_value(strictness, location, &given.value, departures)
        }
    }
}

/// Adds the departures of the values of arguments, judged by these definitions.
pub fn tell_given(
    strictness: &Strictness<'_>,
    definitions: &DefinedArguments<'_>,
    given: &[Node<Argument>],
    departures: &mut Vec<Departure>,
) -> Result<(), AllocError>
    ensures { OnOk result (Tells departures.old departures.new (given_departures_of strictness.now definitions.now given.now)) }
{
    for argument in given {
        tell_argument(strictness, definitions, argument, departures)?;
    }
    Ok(())
}

/// Adds the departures of the arguments of a directive. Of one that is not defined there are none.
fn tell_directive(
    strictness: &Strictness<'_>,
    directive: &Node<Directive>,
    departures: &mut Vec<Departure>,
) -> Result<(), AllocError>
    ensures { OnOk result (Tells departures.old departures.new (directive_departures_of strictness.now directive.now)) }
{
    let applied = directive.content();
    let schema = strictness.schema.schema();
    match schema.directive_definitions.get(&applied.name) {
        None => Ok(()),
        Some(definition) => {
            let defined = strictness
                .schema
                .arguments_of_directive(&applied.name, definition);
            tell_given(
                strictness,
                &defined,
                applied.arguments.as_slice(),
                departures,
            )
        }
    }
}

/// Adds the departures of the arguments of directives.
pub fn tell_directives(
    strictness: &Strictness<'_>,
    directives: &[Node<Directive>],
    departures: &mut Vec<Departure>,
) -> Result<(), AllocError>
    ensures { OnOk result (Tells departures.old departures.new (directives_departures_of strictness.now directives.now)) }
{
    for directive in directives {
        tell_directive(strictness, directive, departures)?;
    }
    Ok(())
}

/// Adds the departures of the arguments of a field that is selected on the type `parent`. Of one that the type does not have there
/// are none.
fn tell_field(
    strictness: &Strictness<'_>,
    parent: &Name,
    field: &Field,
    departures: &mut Vec<Departure>,
) -> Result<(), AllocError>
    ensures { OnOk result (Tells departures.old departures.new (field_departures_of strictness.now parent.now.text field.now)) }
{
    match strictness.schema.schema().type_field(parent, &field.name) {
        Err(_) => Ok(()),
        Ok(definition) => {
            let schema = strictness.schema;
            let defined = schema.arguments_of_field(parent, &field.name, definition);
            tell_given(strictness, &defined, field.arguments.as_slice(), departures)
        }
    }
}

/// Adds the departures of the arguments of a selection on the type `parent`, if it is a field.
fn tell_own(
    strictness: &Strictness<'_>,
    parent: &Name,
    selection: &Selection,
    departures: &mut Vec<Departure>,
) -> Result<(), AllocError>
    ensures { OnOk result (Tells departures.old departures.new (own_departures_of strictness.now parent.now.text selection.now)) }
{
    match selection.as_field() {
        None => Ok(()),
        Some(field) => tell_field(strictness, parent, field.content(), departures),
    }
}

/// Adds the departures of a selection on the type `parent`, apart from those in its set: of its arguments, if it is a field, and of
/// its directives.
pub fn tell_selection(
    strictness: &Strictness<'_>,
    parent: &Name,
    selection: &Selection,
    departures: &mut Vec<Departure>,
) -> Result<(), AllocError>
    ensures { OnOk result (Tells departures.old departures.new (selection_departures_of strictness.now parent.now.text selection.now)) }
{
    tell_own(strictness, parent, selection, departures)?;
    tell_directives(strictness, selection.directives().0.as_slice(), departures)
}
