//! Departures that are told alike: one in a fragment is found for each operation that reaches it.

ghost use Rattle.std.specs.Prelude.{◌≡◌, map};
ghost use Rattle.std.specs.List.{list_any};
ghost use Rattle.strict_documents.specs.DepartureViews.{departure_tree};
ghost use Rattle.graphql_report.specs.Alike.{is_at_one_place, is_alike};

use graphql_names::SourceSpan;
use strict_documents::Departure;

/// Whether both are one place, or there is none.
fn is_at_one_place(one: Option<SourceSpan>, other: Option<SourceSpan>) -> bool
    ensures { result ≡ is_at_one_place one other }
{
    match one {
        None => other.is_none(),
        Some(one) => match other {
            None => false,
            Some(other) => {
                one.file_id.0 == other.file_id.0
                    && one.offset == other.offset
                    && one.length == other.length
            }
        },
    }
}

/// The name that its text mentions, or nothing.
fn mentioned(one: &Departure) -> &str
    ensures { result.now ≡ (departure_tree one.now).name }
{
    match &one.name {
        None => "",
        Some(name) => name.as_str(),
    }
}

/// Whether both are told alike: at one place, under one name, with one text.
fn is_alike(one: &Departure, other: &Departure) -> bool
    ensures { result ≡ is_alike (departure_tree one.now) (departure_tree other.now) }
{
    is_at_one_place(one.location, other.location)
        && one.kind.warning_name() == other.kind.warning_name()
        && mentioned(one) == mentioned(other)
}

/// Whether one of these is told as this one is.
pub(crate) fn is_told_by(one: &Departure, others: &[Departure]) -> bool
    ensures { result ≡ list_any (is_alike (departure_tree one.now)) (map departure_tree others.now) }
{
    for other in others {
        if is_alike(one, other) {
            return true;
        }
    }
    false
}
