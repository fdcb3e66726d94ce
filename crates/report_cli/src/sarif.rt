//! Faults and warnings as a log of SARIF 2.1.0.

ghost use Rattle.std.specs.Prelude.{◌≡◌, ◌++◌, ◌<◌, true, IfOk, OnOk, string_bytes};
ghost use Rattle.std.specs.Fmt.{digit_glyph};
ghost use Rattle.report_cli.specs.Sarif.{uri_byte, uri_text, location_member, related_list, message_words, result_text, results_text};

use report_forms::{Entry, Position, Related, Severity, quoted};
use std::alloc::{AllocError, Global};

/// How the log begins, up to its first result. Columns count characters.
pub(crate) const SARIF_HEAD: &str =
    "{\"$schema\":\"https://json.schemastore.org/sarif-2.1.0.json\",\"version\":\"2.1.0\",\
    \"runs\":[{\"tool\":{\"driver\":{\"name\":\"graphql-report\",\"version\":\"0.1.0\"}},\
    \"columnKind\":\"unicodeCodePoints\",\"results\":[";
/// How it ends, after its last result.
pub(crate) const SARIF_TAIL: &str = "]}]}\n";

/// The entries as results: before the first of them stands this text, before each other a comma and a line feed.
pub fn sarif_results(alloc: Global, before: &str, entries: &[Entry]) -> Result<String, AllocError>
    ensures { IfOk result (λ results. string_bytes results ≡ results_text before.now entries.now) }
{
    let mut results = String::new(alloc);
    let mut separator = before;
    for entry in entries {
        let result = sarif_result(alloc, entry)?;
        write!(results, "{separator}{result}")?;
        separator = ",\n";
    }
    Ok(results)
}

/// The entry as a result. If it has no place, its location has no region.
pub fn sarif_result(alloc: Global, entry: &Entry) -> Result<String, AllocError>
    ensures { IfOk result (λ text. string_bytes text ≡ result_text entry.now) }
{
    let rule = quoted(alloc, entry.rule)?;
    let level = match entry.severity {
        Severity::Error => "error",
        Severity::Warning => "warning",
    };
    let words = message_words(alloc, entry)?;
    let message = quoted(alloc, &words)?;
    let location = match entry.place {
        None => location_member(alloc, &entry.path, None, None)?,
        Some(place) => { location_member(alloc, &entry.path, Some(place.start), Some(place.end))? }
    };
    let related = related_list(alloc, &entry.related)?;
    format!(in alloc;
        "{{\"ruleId\":{rule},\"level\":\"{level}\",\"message\":{{\"text\":{message}}},\"locations\":[{{{location}}}],\"relatedLocations\":[{related}]}}"
    )
}

/// What is wrong, and in brackets the hint, if there is one.
fn message_words(alloc: Global, entry: &Entry) -> Result<String, AllocError>
    ensures { IfOk result (λ words. string_bytes words ≡ message_words entry.now) }
{
    match &entry.hint {
        None => String::from_str(alloc, &entry.message),
        Some(hint) => format!(in alloc; "{} ({hint})", entry.message),
    }
}

/// The other places that belong to an entry, numbered from 0, with a comma between each two.
fn related_list(alloc: Global, related: &[Related]) -> Result<String, AllocError>
    ensures { IfOk result (λ list. string_bytes list ≡ related_list related.now) }
{
    let mut list = String::new(alloc);
    let mut comma = "";
    for (id, other) in related.iter().enumerate() {
        let words = quoted(alloc, &other.words)?;
        let location = location_member(alloc, &other.path, other.start, None)?;
        write!(
            list,
            "{comma}{{\"id\":{id},\"message\":{{\"text\":{words}}},{location}}}"
        )?;
        comma = ",";
    }
    Ok(list)
}

/// The member for a place in the text under this path: the whole text, or a region from where it begins, up to its end if that is
/// told, the place after its last character.
fn location_member(
    alloc: Global,
    path: &str,
    start: Option<Position>,
    end: Option<Position>,
) -> Result<String, AllocError>
    ensures { IfOk result (λ member. string_bytes member ≡ location_member path.now start end) }
{
    let uri = uri_of(alloc, path)?;
    match (start, end) {
        (None, _) => {
            format!(in alloc; "\"physicalLocation\":{{\"artifactLocation\":{{\"uri\":\"{uri}\"}}}}")
        }
        (Some(start), None) => format!(in alloc;
            "\"physicalLocation\":{{\"artifactLocation\":{{\"uri\":\"{uri}\"}},\"region\":{{\"startLine\":{},\"startColumn\":{}}}}}",
            start.line, start.column,
        ),
        (Some(start), Some(end)) => format!(in alloc;
            "\"physicalLocation\":{{\"artifactLocation\":{{\"uri\":\"{uri}\"}},\"region\":{{\"startLine\":{},\"startColumn\":{},\"endLine\":{},\"endColumn\":{}}}}}",
            start.line, start.column, end.line, end.column,
        ),
    }
}

/// The path as a URI (RFC 3986): each byte but `/` and those of unreserved characters is `%` and two hexadecimal digits.
fn uri_of(alloc: Global, path: &str) -> Result<String, AllocError>
    ensures { IfOk result (λ uri. string_bytes uri ≡ uri_text path.now) }
{
    let bytes = path.as_bytes();
    let mut uri = String::new(alloc);
    for byte in bytes {
        push_uri_byte(&mut uri, *byte)?;
    }
    Ok(uri)
}

/// Adds a byte of a path to a URI.
fn push_uri_byte(uri: &mut String, byte: u8) -> Result<(), AllocError>
    ensures { OnOk result (string_bytes uri.new ≡ string_bytes uri.old ++ uri_byte byte) }
{
    if byte.is_ascii_alphanumeric() || matches!(byte, b'-' | b'.' | b'_' | b'~' | b'/') {
        return uri.push(byte as char);
    }
    uri.push('%')?;
    uri.push(hexadecimal_digit(byte / 16))?;
    uri.push(hexadecimal_digit(byte % 16))
}

/// The digit with this value, in upper case.
fn hexadecimal_digit(value: u8) -> char
    requires { value < 16 }
    ensures { result ≡ digit_glyph true value }
{
    let digit = if value < 10 {
        b'0' + value
    } else {
        b'A' + (value - 10)
    };
    digit as char
}
