//! Texts with gaps, and what fills them.
ghost use Rattle.std.specs.Prelude.{Some};
ghost use Rattle.fault_data.specs.FilledTemplate.{filled, gap_text};

use graphql_names::{Name, Node};
use schema_coordinates::{SchemaCoordinate, TypeAttributeCoordinate};
use std::fmt;
use tree_directives::DirectiveLocation;
use tree_literals::{Type, Value};

/// What fills a gap of a text.
#[derive(Clone, Copy)]
pub(crate) enum Gap<'a> {
    Name(&'a Name),
    Words(&'static str),
    Type(&'a Type),
    TypeNode(&'a Node<Type>),
    /// The kind of a value.
    Kind(&'a Node<Value>),
    Location(DirectiveLocation),
    Coordinate(&'a SchemaCoordinate),
    Attribute(&'a TypeAttributeCoordinate),
    /// `type.field`
    FieldOf(&'a Name, &'a Name),
    /// A fragment, by its name where it has one.
    Fragment(&'a Option<Name>),
}

/// A text with some gaps: words and what fills each gap, in turn.
#[derive(Clone, Copy)]
pub(crate) enum Template<'a> {
    Whole(&'static str),
    One(&'static str, Gap<'a>, &'static str),
    Two(&'static str, Gap<'a>, &'static str, Gap<'a>, &'static str),
    Three(&'static str, Gap<'a>, &'static str, Gap<'a>, &'static str, Gap<'a>, &'static str),
    Four(
        &'static str,
        Gap<'a>,
        &'static str,
        Gap<'a>,
        &'static str,
        Gap<'a>,
        &'static str,
        Gap<'a>,
        &'static str,
    ),
    Five(
        &'static str,
        Gap<'a>,
        &'static str,
        Gap<'a>,
        &'static str,
        Gap<'a>,
        &'static str,
        Gap<'a>,
        &'static str,
        Gap<'a>,
        &'static str,
    ),
}

impl fmt::Display for Gap<'_> {
    ghost output = { λ g. Some (gap_text g) };

    #[tactic(auto, using(crate::proofs::GapTexts::gap_rules))]
    fn fmt<W: fmt::Write>(&self, f: &mut fmt::Formatter<W>) -> fmt::Result {
        match self {
            Gap::Name(name) => fmt::Display::fmt(*name, f),
            Gap::Words(words) => fmt::Display::fmt(*words, f),
            Gap::Type(ty) => fmt::Display::fmt(*ty, f),
            Gap::TypeNode(ty) => fmt::Display::fmt(ty.content(), f),
            Gap::Kind(value) => fmt::Display::fmt(value.content().describe(), f),
            Gap::Location(location) => fmt::Display::fmt(location, f),
            Gap::Coordinate(coordinate) => fmt::Display::fmt(*coordinate, f),
            Gap::Attribute(coordinate) => fmt::Display::fmt(*coordinate, f),
            Gap::FieldOf(ty, field) => write!(f, "{ty}.{field}"),
            Gap::Fragment(None) => fmt::Display::fmt("inline fragment", f),
            Gap::Fragment(Some(name)) => write!(f, "fragment `{name}`"),
        }
    }
}

impl fmt::Display for Template<'_> {
    ghost output = { λ t. Some (filled t) };

    fn fmt<W: fmt::Write>(&self, f: &mut fmt::Formatter<W>) -> fmt::Result {
        match self {
            Template::Whole(text) => fmt::Display::fmt(*text, f),
            Template::One(a, x, b) => write!(f, "{a}{x}{b}"),
            Template::Two(a, x, b, y, c) => write!(f, "{a}{x}{b}{y}{c}"),
            Template::Three(a, x, b, y, c, z, d) => write!(f, "{a}{x}{b}{y}{c}{z}{d}"),
            Template::Four(a, x, b, y, c, z, d, u, e) => write!(f, "{a}{x}{b}{y}{c}{z}{d}{u}{e}"),
            Template::Five(a, x, b, y, c, z, d, u, e, v, g) => {
                write!(f, "{a}{x}{b}{y}{c}{z}{d}{u}{e}{v}{g}")
            }
        }
    }
}
