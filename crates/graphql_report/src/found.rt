//! Places that belong to a fault and are found in the texts: brackets that are not closed, and what has a name first.

ghost use Rattle.std.specs.Prelude.{◌≡◌, OnOk, IfSome, Some, option_map};
ghost use Rattle.graphql_faults.specs.DetailsView.{details_of};
ghost use Rattle.graphql_report.specs.FoundPlaces.{AddsFound, Fits, named_again};

use crate::brackets::unclosed;
use crate::hints::Hints;
use crate::text_names::{NameKind, TextName};
use fault_document_errors::BuildError;
use graphql_faults::Details;
use graphql_names::{FileId, SourceSpan};
use report_forms::{Noted, Source, source_at};
use schema_fold::BuildError as FoldingError;
use std::alloc::{AllocError, Global};

/// A place that is found in a text.
#[derive(Clone, Copy)]
struct Found {
    file: FileId,
    offset: usize,
    length: usize,
    /// What is there.
    words: &'static str,
}

/// Adds the places that are found.
#[tactic(auto, using(crate::proofs::Finding::finds_none, crate::proofs::Finding::finds_both))]
pub(crate) fn push_found(
    alloc: Global,
    all: &mut Vec<Noted>,
    hints: &mut Hints<'_>,
    sources: &[Source<'_>],
    own: Option<SourceSpan>,
    details: &Details,
) -> Result<(), AllocError>
    ensures { OnOk result (AddsFound sources.now own (details_of details.now) all.old.items all.new.items) }
{
    let Some(own) = own else {
        return Ok(());
    };
    let (first, second) = match details {
        Details::Syntax(_) => {
            let (open, odd) = unclosed(alloc, sources, own)?;
            (
                bracket_at(own.file_id, open, "opened here, not closed"),
                bracket_at(own.file_id, odd, "opened here, closed at another indent"),
            )
        }
        _ => (
            name_at(hints.first_named(own, details, false), "first defined here"),
            name_at(
                named_below(hints, sources, own, details),
                "defined again here",
            ),
        ),
    };
    push_fitting(all, sources, own, details, first)?;
    push_fitting(all, sources, own, details, second)
}

/// A bracket at this place.
fn bracket_at(file: FileId, place: Option<usize>, words: &'static str) -> Option<Found> {
    let offset = place?;
    Some(Found {
        file,
        offset,
        length: 1,
        words,
    })
}

/// The place of the name.
fn name_at(named: Option<TextName<'_>>, words: &'static str) -> Option<Found> {
    let named = named?;
    Some(Found {
        file: named.file,
        offset: named.start,
        length: named.name.len(),
        words,
    })
}

/// The name that the fault's own definition has, if it is below the line in which that begins, as it is after a description.
fn named_below<'a>(
    hints: &mut Hints<'a>,
    sources: &[Source<'_>],
    own: SourceSpan,
    details: &Details,
) -> Option<TextName<'a>> {
    let named = hints.first_named(own, details, true)?;
    let source = source_at(sources, own)?;
    let before = source.lines.text().get(own.offset..named.start)?;
    if before.contains('\n') {
        Some(named)
    } else {
        None
    }
}

/// Adds the place, if it fits.
#[tactic(auto, using(crate::proofs::Finding::finds_none, crate::proofs::Finding::finds_one))]
fn push_fitting(
    all: &mut Vec<Noted>,
    sources: &[Source<'_>],
    own: SourceSpan,
    details: &Details,
    found: Option<Found>,
) -> Result<(), AllocError>
    ensures { OnOk result (AddsFound sources.now (Some own) (details_of details.now) all.old.items all.new.items) }
{
    let Some(found) = found else {
        return Ok(());
    };
    if let Some(span) = fitting(sources, own, details, found) {
        all.push(Noted {
            place: Some(span),
            words: found.words,
        })?;
    }
    Ok(())
}

/// The place, if a bracket opens there before a fault of syntax, or the name is there that is there twice.
#[tactic(auto, using(crate::proofs::Finding::bracket_fits, crate::proofs::Finding::name_fits))]
fn fitting(
    sources: &[Source<'_>],
    own: SourceSpan,
    details: &Details,
    found: Found,
) -> Option<SourceSpan>
    ensures { IfSome result (λ span. Fits sources.now own (details_of details.now) span) }
{
    let Found {
        file: file_id,
        offset,
        length,
        ..
    } = found;
    if length > usize::MAX - offset {
        return None;
    }
    let span = SourceSpan {
        file_id,
        offset,
        length,
    };
    let source = source_at(sources, span)?;
    let text = source.lines.text().as_bytes();
    if offset + length > text.len() {
        return None;
    }
    let (head, _) = text.split_at(offset + length);
    let (_, here) = head.split_at(offset);
    match (details, named_again(details)) {
        (Details::Syntax(_), _) => match here {
            [b'{' | b'(' | b'['] if file_id == own.file_id && offset < own.offset => Some(span),
            _ => None,
        },
        (_, Some((_, _, name))) if here == name.as_bytes() => Some(span),
        _ => None,
    }
}

/// What is named a second time: of which kind it is, the type that has it, and its name.
pub(crate) fn named_again(details: &Details) -> Option<(NameKind, &str, &str)>
    ensures { option_map (λ again. again.2.now) result ≡ named_again (details_of details.now) }
{
    match details {
        Details::SchemaBuild(FoldingError::SchemaDefinitionCollision) => {
            Some((NameKind::Schema, "", "schema"))
        }
        Details::SchemaBuild(FoldingError::TypeDefinitionCollision { name }) => {
            Some((NameKind::Type, "", name.as_str()))
        }
        Details::SchemaBuild(FoldingError::DirectiveDefinitionCollision { name }) => {
            Some((NameKind::Directive, "", name.as_str()))
        }
        Details::SchemaBuild(
            FoldingError::DuplicateImplementsInterfaceInObject { type_name, name }
            | FoldingError::DuplicateImplementsInterfaceInInterface { type_name, name }
            | FoldingError::ObjectFieldNameCollision { type_name, name }
            | FoldingError::InterfaceFieldNameCollision { type_name, name }
            | FoldingError::EnumValueNameCollision { type_name, name }
            | FoldingError::UnionMemberNameCollision { type_name, name }
            | FoldingError::InputFieldNameCollision { type_name, name },
        ) => Some((NameKind::Member, type_name.as_str(), name.as_str())),
        Details::DocumentBuild(BuildError::OperationNameCollision { name }) => {
            Some((NameKind::Operation, "", name.as_str()))
        }
        Details::DocumentBuild(BuildError::FragmentNameCollision { name }) => {
            Some((NameKind::Fragment, "", name.as_str()))
        }
        _ => None,
    }
}
