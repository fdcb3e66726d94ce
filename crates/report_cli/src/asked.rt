//! What a line of a batch asks for.

ghost use Rattle.std.specs.Prelude.{◌≡◌, IfOk, map, option_map, string_bytes};
ghost use Rattle.report_cli.specs.Asked.{asked_as, asked_by, asked_document, asked_of, asked_schema, id_text, texts_in, texts_of};
ghost use Rattle.serde_json.specs.View.{items_view, view};

use serde_json::Value;
use std::alloc::{AllocError, Global};

/// A document that a line asks for.
pub struct Request {
    /// What the answer is known by, as JSON.
    pub id: String,
    /// The document's text.
    pub document: String,
}

impl Drop for Request {
    fn drop(self) {
        let Request { id: _, document: _ } = self;
    }
}

/// A schema that a line opens for the lines after it.
pub struct SchemaRequest {
    /// What the answer is known by, as JSON.
    pub id: String,
    /// The schema's texts, in order.
    pub texts: Vec<String>,
}

impl Drop for SchemaRequest {
    fn drop(self) {
        let SchemaRequest { id: _, texts: _ } = self;
    }
}

/// Why a line asks for nothing that can be done.
#[derive(Clone, Copy)]
pub enum Why {
    NotJson,
    NotUtf8,
    /// It is no object with an `id`.
    NoId,
    /// The `id` is neither a text nor a whole number.
    WrongId,
    NoDocument,
    /// The `document` is no text.
    WrongDocument,
    /// There is a `document` and a `schema`.
    Both,
    /// The `schema` is no array of texts.
    WrongSchema,
    /// The `schema` is an array of none.
    EmptySchema,
    /// It asks for a document, after a schema that was refused.
    NoSchema,
}

/// What a line of a batch asks for.
#[derive(Drop)]
pub enum Asked {
    Document(Request),
    Schema(SchemaRequest),
    /// Nothing: the line is blank.
    Blank,
    /// Nothing that can be done. The id is JSON, if there is one.
    Wrong { id: Option<String>, why: Why },
}

/// What the line asks for: a document, if it is a JSON object with an `id`, which is a text or a whole number, and a text
/// `document`; a schema, if it has in its place a `schema`, which is an array of one text or more; nothing, if it is blank.
pub fn request_of(alloc: Global, line: &str) -> Result<Asked, AllocError>
    ensures { IfOk result (λ asked. asked_as asked ≡ asked_by line.now) }
{
    if line.trim().is_empty() {
        return Ok(Asked::Blank);
    }
    let value = match Value::from_str(alloc, line) {
        Ok(value) => value,
        Err(error) if error.is_memory() => return Err(AllocError),
        Err(_) => {
            return Ok(Asked::Wrong {
                id: None,
                why: Why::NotJson,
            });
        }
    };
    request_in(alloc, &value)
}

/// What the value asks for.
fn request_in(alloc: Global, value: &Value) -> Result<Asked, AllocError>
    ensures { IfOk result (λ asked. asked_as asked ≡ asked_of (view value.now)) }
{
    let Some(id) = value.get("id") else {
        return Ok(Asked::Wrong {
            id: None,
            why: Why::NoId,
        });
    };
    let Some(id) = id_text(alloc, id)? else {
        return Ok(Asked::Wrong {
            id: None,
            why: Why::WrongId,
        });
    };
    match (value.get("document"), value.get("schema")) {
        (document, None) => document_in(alloc, id, document),
        (None, Some(schema)) => schema_in(alloc, id, schema),
        (Some(_), Some(_)) => Ok(Asked::Wrong {
            id: Some(id),
            why: Why::Both,
        }),
    }
}

/// What is asked for under this id, as JSON, by what is under `document`.
fn document_in(alloc: Global, id: String, document: Option<&Value>) -> Result<Asked, AllocError>
    ensures { IfOk result (λ asked. asked_as asked ≡ asked_document (string_bytes id) (option_map (λ v. view v.now) document.entry)) }
{
    let Some(document) = document else {
        return Ok(Asked::Wrong {
            id: Some(id),
            why: Why::NoDocument,
        });
    };
    let Some(document) = document.as_str() else {
        return Ok(Asked::Wrong {
            id: Some(id),
            why: Why::WrongDocument,
        });
    };
    let document = String::from_str(alloc, document)?;
    Ok(Asked::Document(Request { id, document }))
}

/// What is asked for under this id, as JSON, by what is under `schema`.
fn schema_in(alloc: Global, id: String, schema: &Value) -> Result<Asked, AllocError>
    ensures { IfOk result (λ asked. asked_as asked ≡ asked_schema (string_bytes id) (view schema.now)) }
{
    let Some(texts) = texts_of(alloc, schema)? else {
        return Ok(Asked::Wrong {
            id: Some(id),
            why: Why::WrongSchema,
        });
    };
    if texts.is_empty() {
        return Ok(Asked::Wrong {
            id: Some(id),
            why: Why::EmptySchema,
        });
    }
    Ok(Asked::Schema(SchemaRequest { id, texts }))
}

/// The texts, if the value is an array of texts.
fn texts_of(alloc: Global, value: &Value) -> Result<Option<Vec<String>>, AllocError>
    ensures { IfOk result (λ texts. option_map (λ v. map string_bytes v.items) texts ≡ texts_of (view value.now)) }
{
    match value.as_array() {
        None => Ok(None),
        Some(items) => texts_in(alloc, items),
    }
}

/// The texts, if each value is one.
fn texts_in(alloc: Global, values: &[Value]) -> Result<Option<Vec<String>>, AllocError>
    ensures { IfOk result (λ texts. option_map (λ v. map string_bytes v.items) texts ≡ texts_in (items_view values.now)) }
{
    let mut texts = Vec::new(alloc);
    for value in values {
        let Some(text) = value.as_str() else {
            return Ok(None);
        };
        texts.push(String::from_str(alloc, text)?)?;
    }
    Ok(Some(texts))
}

/// The text or whole number, as JSON.
fn id_text(alloc: Global, id: &Value) -> Result<Option<String>, AllocError>
    ensures { IfOk result (λ text. option_map string_bytes text ≡ id_text (view id.now)) }
{
    if !id.is_string() && (!id.is_number() || id.is_f64()) {
        return Ok(None);
    }
    let text = id.to_string(alloc)?;
    Ok(Some(text))
}
