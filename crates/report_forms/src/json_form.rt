//! A fault as a line of JSON.

ghost use Rattle.std.specs.Prelude.{◌≡◌, ◌++◌, ◌∷◌, [], true, codes, option_map, OnOk, IfOk, string_bytes};
ghost use Rattle.std.specs.List.{join_by};
ghost use Rattle.json.specs.Print.{quoted};
ghost use Rattle.report_forms.specs.Forms.{one_line, IsOneLine};
ghost use Rattle.report_forms.specs.Objects.{place_members, start_members, related_object, related_member, hint_member, field_member, fields_member, object};

use crate::entry::{Entry, Field, Place, Related};
use crate::position::Position;
use serde_json::Value;
use std::alloc::{AllocError, Global};

impl Entry {
    /// The fault as a JSON object in a line: `path`; `line`, `column`, `end`, `offset` and `length`, which are null if it
    /// has no place; `severity`, `rule`, `message`, `related`, `hint`, and `fields`, the data of the fault.
    pub fn json(&self, alloc: Global) -> Result<String, AllocError>
        ensures value { IfOk result (λ text. string_bytes text ≡ object self.now ++ 10 ∷ []) }
        ensures line { IfOk result (λ text. IsOneLine (string_bytes text)) }
    {
        let object = self.object(alloc)?;
        format!(in alloc; "{object}\n")
    }

    /// The object, which ends in no line feed.
    pub fn object(&self, alloc: Global) -> Result<String, AllocError>
        ensures value { IfOk result (λ text. string_bytes text ≡ object self.now) }
        ensures plain { IfOk result (λ text. one_line (string_bytes text) ≡ true) }
    {
        let mut out = String::new(alloc);
        self.push_object(alloc, &mut out)?;
        Ok(out)
    }

    /// Adds the object.
    fn push_object(&self, alloc: Global, out: &mut String) -> Result<(), AllocError>
        ensures { OnOk result (string_bytes out.new ≡ string_bytes out.old ++ object self.now) }
    {
        push_text(alloc, out, "{\"path\":", &self.path)?;
        push_place(out, self.place)?;
        push_text(alloc, out, ",\"severity\":", self.severity.word())?;
        push_text(alloc, out, ",\"rule\":", self.rule)?;
        push_text(alloc, out, ",\"message\":", &self.message)?;
        push_related(alloc, out, &self.related)?;
        push_hint(alloc, out, &self.hint)?;
        push_fields(alloc, out, &self.fields)
    }
}

/// Adds a text in JSON after a head.
fn push_text(alloc: Global, out: &mut String, head: &str, text: &str) -> Result<(), AllocError>
    ensures { OnOk result (string_bytes out.new ≡ string_bytes out.old ++ (head.now ++ quoted text.now)) }
{
    let text = quoted(alloc, text)?;
    write!(out, "{head}{text}")
}

/// The text as JSON.
pub fn quoted(alloc: Global, text: &str) -> Result<String, AllocError>
    ensures { IfOk result (λ json. string_bytes json ≡ quoted text.now) }
{
    Value::String(String::from_str(alloc, text)?).to_string(alloc)
}

/// Adds the members of the place.
fn push_place(out: &mut String, place: Option<Place>) -> Result<(), AllocError>
    ensures { OnOk result (string_bytes out.new ≡ string_bytes out.old ++ place_members place) }
{
    let Some(place) = place else {
        return out.push_str(
            ",\"line\":null,\"column\":null,\"end\":null,\"offset\":null,\"length\":null",
        );
    };
    write!(
        out,
        ",\"line\":{},\"column\":{},\"end\":{{\"line\":{},\"column\":{}}},\"offset\":{},\"length\":{}",
        place.start.line,
        place.start.column,
        place.end.line,
        place.end.column,
        place.offset,
        place.length,
    )
}

/// Adds the places that belong to the fault.
fn push_related(alloc: Global, out: &mut String, related: &[Related]) -> Result<(), AllocError>
    ensures { OnOk result (string_bytes out.new ≡ string_bytes out.old ++ related_member related.now) }
{
    out.push_str(",\"related\":[")?;
    push_others(alloc, out, related)?;
    out.push_str("]")
}

/// Adds these places, with a comma between each two.
fn push_others(alloc: Global, out: &mut String, related: &[Related]) -> Result<(), AllocError>
    ensures { OnOk result (string_bytes out.new ≡ string_bytes out.old ++ join_by related_object (codes ",") related.now) }
{
    let Some((first, others)) = related.split_first() else {
        return Ok(());
    };
    push_other(alloc, out, "", first)?;
    for other in others {
        push_other(alloc, out, ",", other)?;
    }
    Ok(())
}

/// Adds such a place after a comma, or after nothing.
fn push_other(
    alloc: Global,
    out: &mut String,
    comma: &str,
    other: &Related,
) -> Result<(), AllocError>
    ensures { OnOk result (string_bytes out.new ≡ string_bytes out.old ++ (comma.now ++ related_object other.now)) }
{
    out.push_str(comma)?;
    push_text(alloc, out, "{\"path\":", &other.path)?;
    push_start(out, other.start)?;
    push_text(alloc, out, ",\"words\":", &other.words)?;
    out.push_str("}")
}

/// Adds where such a place begins.
fn push_start(out: &mut String, start: Option<Position>) -> Result<(), AllocError>
    ensures { OnOk result (string_bytes out.new ≡ string_bytes out.old ++ start_members start) }
{
    match start {
        None => out.push_str(",\"line\":null,\"column\":null"),
        Some(start) => { write!(out, ",\"line\":{},\"column\":{}", start.line, start.column) }
    }
}

/// Adds the hint.
fn push_hint(alloc: Global, out: &mut String, hint: &Option<String>) -> Result<(), AllocError>
    ensures { OnOk result (string_bytes out.new ≡ string_bytes out.old ++ hint_member (option_map string_bytes hint.now)) }
{
    match hint {
        None => out.push_str(",\"hint\":null"),
        Some(words) => push_text(alloc, out, ",\"hint\":", words),
    }
}

/// Adds the data of the fault, and the end of the object.
fn push_fields(alloc: Global, out: &mut String, fields: &[Field]) -> Result<(), AllocError>
    ensures { OnOk result (string_bytes out.new ≡ string_bytes out.old ++ fields_member fields.now) }
{
    out.push_str(",\"fields\":{")?;
    push_members(alloc, out, fields)?;
    out.push_str("}}")
}

/// Adds these data, with a comma between each two.
fn push_members(alloc: Global, out: &mut String, fields: &[Field]) -> Result<(), AllocError>
    ensures { OnOk result (string_bytes out.new ≡ string_bytes out.old ++ join_by field_member (codes ",") fields.now) }
{
    let Some((first, others)) = fields.split_first() else {
        return Ok(());
    };
    push_member(alloc, out, "", first)?;
    for field in others {
        push_member(alloc, out, ",", field)?;
    }
    Ok(())
}

/// Adds a text of the data after a comma, or after nothing.
fn push_member(
    alloc: Global,
    out: &mut String,
    comma: &str,
    field: &Field,
) -> Result<(), AllocError>
    ensures { OnOk result (string_bytes out.new ≡ string_bytes out.old ++ (comma.now ++ field_member field.now)) }
{
    push_text(alloc, out, comma, field.name)?;
    push_text(alloc, out, ":", &field.value)
}
