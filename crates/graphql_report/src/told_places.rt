//! The places that the data of a fault have.

ghost use Rattle.std.specs.Prelude.{◌≡◌, ◌++◌, ◌∷◌, [], map, IfOk, OnOk};
ghost use Rattle.graphql_names.specs.Node.{place};
ghost use Rattle.fault_data.specs.DiagnosticView.{diagnostic_of};
ghost use Rattle.graphql_faults.specs.DetailsView.{details_of};
ghost use Rattle.graphql_report.specs.ToldPlaces.{plain, taker_words, first_of_data, more_of_data, first_of, places_of, extended, in_cycle};
ghost use Rattle.schema_coordinates.specs.CoordinateView.{schema_coordinate};

use fault_data::DiagnosticData;
use fault_document_errors::BuildError;
use graphql_faults::Details;
use graphql_names::{Node, SourceSpan};
use report_forms::Noted;
use schema_coordinates::SchemaCoordinate;
use std::alloc::{AllocError, Global};

/// The places that the fault's data have, in the order in which they have them, each with words. If a fault has no such
/// place, the first is none.
pub(crate) fn places_of(alloc: Global, details: &Details) -> Result<Vec<Noted>, AllocError>
    ensures { IfOk result (λ noted. map plain noted.items ≡ places_of (details_of details.now)) }
{
    let (place, words) = first_of(details);
    let mut noted = vec![in alloc; Noted { place, words }]?;
    match details {
        Details::Data(diagnostic) => {
            push_more_of_data(&mut noted, diagnostic)?;
            Ok(noted)
        }
        _ => Ok(noted),
    }
}

/// The first place, and what is there.
fn first_of(details: &Details) -> (Option<SourceSpan>, &'static str)
    ensures { (result.0, result.1.now) ≡ first_of (details_of details.now) }
{
    match details {
        Details::Data(diagnostic) => first_of_data(diagnostic),
        Details::DocumentBuild(BuildError::ConflictingFieldName(fields)) => (
            fields.original_location,
            "the other field",
        ),
        Details::DocumentBuild(BuildError::ConflictingFieldArgument(fields)) => (
            fields.original_location,
            "the other field",
        ),
        Details::DocumentBuild(BuildError::ConflictingFieldType(fields)) => (
            fields.original_location,
            "the other field",
        ),
        Details::DocumentBuild(
            BuildError::DuplicateDeferLabel {
                original_location,
                ..
            },
        ) => (*original_location, "first used here"),
        _ => (None, ""),
    }
}

/// The first place of a fault of schemas, uses, values or documents.
fn first_of_data(diagnostic: &DiagnosticData) -> (Option<SourceSpan>, &'static str)
    ensures { (result.0, result.1.now) ≡ first_of_data (diagnostic_of diagnostic.now) }
{
    match diagnostic {
        DiagnosticData::DuplicateRootOperationType {
            original_definition,
            ..
        } => (*original_definition, "first named as a root here"),
        DiagnosticData::OutputType { type_location, .. }
        | DiagnosticData::InputType { type_location, .. } => (*type_location, "the type"),
        DiagnosticData::UniqueInputValue {
            original_definition,
            ..
        }
        | DiagnosticData::UniqueVariable {
            original_definition,
            ..
        } => (*original_definition, "first defined here"),
        DiagnosticData::UniqueArgument {
            original_definition,
            ..
        } => (*original_definition, "first given here"),
        DiagnosticData::UniqueDirective {
            original_application,
            ..
        } => (*original_application, "first used here"),
        DiagnosticData::TransitiveImplementedInterfaces {
            transitive_interface_location,
            ..
        } => (*transitive_interface_location, "implemented here"),
        DiagnosticData::MissingInterfaceField { field_location, .. } => (
            *field_location,
            "the interface's field",
        ),
        DiagnosticData::InvalidImplementationFieldType {
            interface_field_location,
            ..
        }
        | DiagnosticData::ExtraRequiredImplementationFieldArgument {
            interface_field_location,
            ..
        } => (*interface_field_location, "the interface's field"),
        DiagnosticData::MissingInterfaceFieldArgument {
            interface_argument_location,
            ..
        }
        | DiagnosticData::InvalidImplementationFieldArgumentType {
            interface_argument_location,
            ..
        } => (*interface_argument_location, "the interface's argument"),
        DiagnosticData::UnsupportedLocation {
            definition_location,
            ..
        } => (*definition_location, "the directive's definition"),
        DiagnosticData::UndefinedArgument {
            coordinate,
            definition_location,
            ..
        } => (*definition_location, taker_words(coordinate)),
        DiagnosticData::RequiredArgument {
            definition_location,
            ..
        }
        | DiagnosticData::UnsupportedValueType {
            definition_location,
            ..
        }
        | DiagnosticData::UndefinedEnumValue {
            definition_location,
            ..
        }
        | DiagnosticData::UndefinedInputValue {
            definition_location,
            ..
        }
        | DiagnosticData::RequiredField {
            definition_location,
            ..
        } => (*definition_location, "the definition"),
        DiagnosticData::DisallowedVariableUsage {
            variable_location,
            ..
        } => (*variable_location, "the variable's definition"),
        DiagnosticData::InvalidFragmentSpread {
            fragment_location,
            ..
        } => (*fragment_location, "the fragment's definition"),
        _ => (None, ""),
    }
}

/// What is at the place that an undefined argument has apart from its own: the definition of the field, or the use of the
/// directive.
fn taker_words(coordinate: &SchemaCoordinate) -> &'static str
    ensures { result.now ≡ taker_words (schema_coordinate coordinate.now) }
{
    match coordinate {
        SchemaCoordinate::Directive(_) => "the use of the directive",
        _ => "the definition",
    }
}

/// Adds the further places of a fault of schemas, uses, values or documents.
#[tactic(auto, using(crate::proofs::Cycles::inputs_in_cycle, crate::proofs::Cycles::directives_in_cycle, crate::proofs::Cycles::spreads_in_cycle))]
fn push_more_of_data(all: &mut Vec<Noted>, diagnostic: &DiagnosticData) -> Result<(), AllocError>
    ensures { OnOk result (map plain all.new.items ≡ map plain all.old.items ++ more_of_data (diagnostic_of diagnostic.now)) }
{
    match diagnostic {
        DiagnosticData::EmptyFieldSet {
            extensions_locations,
            ..
        }
        | DiagnosticData::EmptyValueSet {
            extensions_locations,
            ..
        }
        | DiagnosticData::EmptyMemberSet {
            extensions_locations,
            ..
        }
        | DiagnosticData::EmptyInputValueSet {
            extensions_locations,
            ..
        } => push_extended(all, extensions_locations),
        DiagnosticData::InvalidFragmentSpread { type_location, .. } => {
            all.push(Noted {
                place: *type_location,
                words: "the type's definition",
            })?;
            Ok(())
        }
        DiagnosticData::RecursiveInputObjectDefinition { trace, .. } => push_cycle(all, trace),
        DiagnosticData::RecursiveDirectiveDefinition { trace, .. } => push_cycle(all, trace),
        DiagnosticData::RecursiveFragmentDefinition { trace, .. } => push_cycle(all, trace),
        _ => Ok(()),
    }
}

/// Adds the places at which a type is extended.
fn push_extended(all: &mut Vec<Noted>, places: &[Option<SourceSpan>]) -> Result<(), AllocError>
    ensures { OnOk result (map plain all.new.items ≡ map plain all.old.items ++ map extended places.now) }
{
    for place in places {
        push(all, *place, "extended here")?;
    }
    Ok(())
}

/// Adds the places of a cycle.
fn push_cycle<T>(all: &mut Vec<Noted>, cycle: &[Node<T>]) -> Result<(), AllocError>
    ensures { OnOk result (map plain all.new.items ≡ map plain all.old.items ++ map (λ node. in_cycle (place node)) cycle.now) }
{
    for node in cycle {
        push(all, node.location(), "the cycle goes through here")?;
    }
    Ok(())
}

/// Adds a place, with words.
fn push(
    all: &mut Vec<Noted>,
    place: Option<SourceSpan>,
    words: &'static str,
) -> Result<(), AllocError>
    ensures { OnOk result (map plain all.new.items ≡ map plain all.old.items ++ (place, words.now) ∷ []) }
{
    all.push(Noted { place, words })?;
    Ok(())
}
