//! The parts of a text that is written in the form of a coordinate.
ghost use Rattle.std.specs.Prelude.{◌≡◌, ◌<◌, Bool, Some, IfOk, IfErr};
ghost use Rattle.std.specs.Option.{option_map};
ghost use Rattle.schema_coordinates.specs.Coordinate.{Coordinate, has_no_sign, is_signless};
ghost use Rattle.schema_coordinates.specs.ParseErrors.{ParseErrorIsDue};
ghost use Rattle.schema_coordinates.specs.Reading.{parts_view, cut_at, argument_cut, directive_cut, type_cut, all_cut, read};

use crate::parse_error::SchemaCoordinateParseError;

/// The texts in the positions where a coordinate of one of the forms has its names.
#[derive(Clone, Copy)]
pub(crate) enum Parts<'a> {
    Type(&'a str),
    TypeAttribute(&'a str, &'a str),
    FieldArgument(&'a str, &'a str, &'a str),
    Directive(&'a str),
    DirectiveArgument(&'a str, &'a str),
}

impl Parts<'_> {
    /// Whether no part has a sign.
    fn are_signless(&self) -> bool
        ensures { result ≡ is_signless (parts_view self.now) }
    {
        match self {
            Parts::Type(ty) => has_no_sign(ty),
            Parts::TypeAttribute(ty, attribute) => has_no_sign(ty) && has_no_sign(attribute),
            Parts::FieldArgument(ty, field, argument) => {
                has_no_sign(ty) && has_no_sign(field) && has_no_sign(argument)
            }
            Parts::Directive(directive) => has_no_sign(directive),
            Parts::DirectiveArgument(directive, argument) => {
                has_no_sign(directive) && has_no_sign(argument)
            }
        }
    }
}

/// The parts of the text. `InvalidFormat`, if it is written in none of the forms: its signs must be those of one.
pub(crate) fn parts_of(text: &str) -> Result<Parts<'_>, SchemaCoordinateParseError>
    ensures read { IfOk result (λ p. read text.now ≡ Some (parts_view p)) }
    ensures error { IfErr result (λ e. (form : Coordinate → Bool) → ParseErrorIsDue form text.now e) }
{
    match cut_parts(text) {
        // The text is cut at the first of each sign, so a part may have a further sign: then the text has none of the forms.
        Some(parts) if parts.are_signless() => Ok(parts),
        _ => Err(SchemaCoordinateParseError::InvalidFormat),
    }
}

/// Whether the text has no sign.
fn has_no_sign(text: &str) -> bool
    ensures { result ≡ has_no_sign text.now }
{
    text.as_bytes()
        .iter()
        .all(|byte| !matches!(byte, b'@' | b'.' | b'(' | b':' | b')'))
}

/// Cuts the text at the first of each sign in turn.
fn cut_parts(text: &str) -> Option<Parts<'_>>
    ensures { option_map parts_view result ≡ all_cut text.now }
{
    match text.strip_prefix('@') {
        None => type_parts(text),
        Some(rest) => directive_parts(rest),
    }
}

/// Cuts a text that does not begin with `@`.
fn type_parts(text: &str) -> Option<Parts<'_>>
    ensures { option_map parts_view result ≡ type_cut text.now }
{
    match cut_at(text, '.') {
        None => Some(Parts::Type(text)),
        Some((ty, rest)) => match cut_at(rest, '(') {
            None => Some(Parts::TypeAttribute(ty, rest)),
            Some((field, rest)) => Some(Parts::FieldArgument(ty, field, argument_part(rest)?)),
        },
    }
}

/// Cuts what follows `@`.
fn directive_parts(text: &str) -> Option<Parts<'_>>
    ensures { option_map parts_view result ≡ directive_cut text.now }
{
    match cut_at(text, '(') {
        None => Some(Parts::Directive(text)),
        Some((directive, rest)) => Some(Parts::DirectiveArgument(directive, argument_part(rest)?)),
    }
}

/// The text before `:)`, if nothing follows that.
fn argument_part(text: &str) -> Option<&str>
    ensures { option_map (λ a. a.now) result ≡ argument_cut text.now }
{
    let (argument, rest) = cut_at(text, ':')?;
    if rest == ")" { Some(argument) } else { None }
}

/// The text before the first such sign, and the text after it.
fn cut_at(text: &str, sign: char) -> Option<(&str, &str)>
    requires { sign < 128 }
    ensures { option_map (λ p. (p.0.now, p.1.now)) result ≡ cut_at sign text.now }
{
    text.split_once(sign)
}
