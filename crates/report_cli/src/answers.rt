//! The lines that answer a batch, and the records among lines of JSON.

ghost use Rattle.std.specs.Prelude.{◌≡◌, IfOk, map, option_map, string_bytes};
ghost use Rattle.report_cli.specs.Answers.{accepted_text, warnings_members, count_member, refused_text, schema_accepted_text, schema_refused_text, schema_path, schema_paths, wrong_text, schema_text, paths_text, document_text, unread_text, summary_text};

use crate::asked::Why;
use crate::tally::Tally;
use report_forms::quoted;
use std::alloc::{AllocError, Global};

/// The answer to a document that is accepted: `{"id":ID,"accepted":true,"written":TEXT}`, with these members after them. The id is JSON.
pub(crate) fn accepted_line(
    alloc: Global,
    id: &str,
    written: &str,
    members: &str,
) -> Result<String, AllocError>
    ensures { IfOk result (λ line. string_bytes line ≡ accepted_text id.now written.now members.now) }
{
    let written = quoted(alloc, written)?;
    format!(in alloc; "{{\"id\":{id},\"accepted\":true,\"written\":{written}{members}}}\n")
}

/// The members for warnings of such an answer: `,"warnings":[WARNINGS],"left_out":N`. The warnings are JSON, with a comma between each two; N more are
/// left out.
pub(crate) fn warnings_members(
    alloc: Global,
    warnings: &str,
    left_out: usize,
) -> Result<String, AllocError>
    ensures { IfOk result (λ members. string_bytes members ≡ warnings_members warnings.now left_out) }
{
    format!(in alloc; ",\"warnings\":[{warnings}],\"left_out\":{left_out}")
}

/// The answer to a document that is refused: `{"id":ID,"accepted":false,"faults":[FAULTS],"left_out":N}`. The id is JSON, and so
/// are the faults, with a comma between each two; N more are left out.
pub(crate) fn refused_line(
    alloc: Global,
    id: &str,
    faults: &str,
    left_out: usize,
) -> Result<String, AllocError>
    ensures { IfOk result (λ line. string_bytes line ≡ refused_text id.now faults.now left_out) }
{
    format!(in alloc;
        "{{\"id\":{id},\"accepted\":false,\"faults\":[{faults}],\"left_out\":{left_out}}}\n"
    )
}

/// The answer to a schema that is accepted: `{"id":ID,"schema":"accepted"}`, with these members after them. The id is JSON.
pub(crate) fn schema_accepted_line(
    alloc: Global,
    id: &str,
    members: &str,
) -> Result<String, AllocError>
    ensures { IfOk result (λ line. string_bytes line ≡ schema_accepted_text id.now members.now) }
{
    format!(in alloc; "{{\"id\":{id},\"schema\":\"accepted\"{members}}}\n")
}

/// The answer to a schema that is refused: `{"id":ID,"schema":"refused","faults":[FAULTS],"left_out":N}`. The id is JSON, and so
/// are the faults, with a comma between each two; N more are left out.
pub(crate) fn schema_refused_line(
    alloc: Global,
    id: &str,
    faults: &str,
    left_out: usize,
) -> Result<String, AllocError>
    ensures { IfOk result (λ line. string_bytes line ≡ schema_refused_text id.now faults.now left_out) }
{
    format!(in alloc;
        "{{\"id\":{id},\"schema\":\"refused\",\"faults\":[{faults}],\"left_out\":{left_out}}}\n"
    )
}

/// The paths of so many texts of a schema that a line opens: `schema` of one, else `schema[0]`, `schema[1]` and so on.
pub fn schema_paths(alloc: Global, count: usize) -> Result<Vec<String>, AllocError>
    ensures { IfOk result (λ paths. map string_bytes paths.items ≡ schema_paths count) }
{
    let mut paths = Vec::new(alloc);
    if count == 1 {
        paths.push(String::from_str(alloc, "schema")?)?;
        return Ok(paths);
    }
    for index in 0..count {
        paths.push(schema_path(alloc, index)?)?;
    }
    Ok(paths)
}

/// The path of the text with this index, of several.
fn schema_path(alloc: Global, index: usize) -> Result<String, AllocError>
    ensures { IfOk result (λ path. string_bytes path ≡ schema_path index) }
{
    format!(in alloc; "schema[{index}]")
}

/// The answer to a line that asks for nothing that can be done: `{"id":ID,"accepted":false,"line":N,"error":WHY}`. The id is JSON, and
/// null if there is none; the lines are counted from 1.
pub(crate) fn wrong_line(
    alloc: Global,
    id: Option<&str>,
    number: usize,
    why: Why,
) -> Result<String, AllocError>
    ensures { IfOk result (λ line. string_bytes line ≡ wrong_text (option_map (λ text. text.now) id.entry) number why) }
{
    let id = id.unwrap_or("null");
    let why = match why {
        Why::NotJson => "the line is not JSON",
        Why::NotUtf8 => "the line is not UTF-8",
        Why::NoId => "there is no `id`",
        Why::WrongId => "the `id` is neither a string nor a whole number",
        Why::NoDocument => "there is no `document`",
        Why::WrongDocument => "the `document` is not a string",
        Why::Both => "there is both a `document` and a `schema`",
        Why::WrongSchema => "the `schema` is not an array of strings",
        Why::EmptySchema => "the `schema` is an empty array",
        Why::NoSchema => "no schema is open: the last one was refused",
    };
    format!(in alloc; "{{\"id\":{id},\"accepted\":false,\"line\":{number},\"error\":\"{why}\"}}\n")
}

/// The record of the schema of the texts under these paths: `{"schema":[PATHS],"accepted":true,"faults":0}`, with the number of
/// warnings if they are told.
pub(crate) fn schema_record(
    alloc: Global,
    paths: &[String],
    faults: usize,
    warnings: Option<usize>,
) -> Result<String, AllocError>
    ensures { IfOk result (λ line. string_bytes line ≡ schema_text (map string_bytes paths.now) faults warnings) }
{
    let paths = quoted_paths(alloc, paths)?;
    let is_accepted = faults == 0;
    let warnings = count_member(alloc, warnings)?;
    format!(in alloc;
        "{{\"schema\":[{paths}],\"accepted\":{is_accepted},\"faults\":{faults}{warnings}}}\n"
    )
}

/// The paths as JSON, with a comma between each two.
fn quoted_paths(alloc: Global, paths: &[String]) -> Result<String, AllocError>
    ensures { IfOk result (λ list. string_bytes list ≡ paths_text (map string_bytes paths.now)) }
{
    let Some((first, others)) = paths.split_first() else {
        return Ok(String::new(alloc));
    };
    let mut list = quoted(alloc, first)?;
    for path in others {
        let path = quoted(alloc, path)?;
        write!(list, ",{path}")?;
    }
    Ok(list)
}

/// The member for the number of warnings, if they are told: `,"warnings":N`.
fn count_member(alloc: Global, warnings: Option<usize>) -> Result<String, AllocError>
    ensures { IfOk result (λ member. string_bytes member ≡ count_member warnings) }
{
    match warnings {
        None => Ok(String::new(alloc)),
        Some(warnings) => format!(in alloc; ",\"warnings\":{warnings}"),
    }
}

/// The record of a document that is read: `{"document":PATH,"accepted":true,"faults":0}`, with the number of warnings if they are told.
pub(crate) fn document_record(
    alloc: Global,
    path: &str,
    faults: usize,
    warnings: Option<usize>,
) -> Result<String, AllocError>
    ensures { IfOk result (λ line. string_bytes line ≡ document_text path.now faults warnings) }
{
    let path = quoted(alloc, path)?;
    let accepted = faults == 0;
    let warnings = count_member(alloc, warnings)?;
    format!(in alloc;
        "{{\"document\":{path},\"accepted\":{accepted},\"faults\":{faults}{warnings}}}\n"
    )
}

/// The record of a document, or of a text of the schema, that cannot be read: `{"KIND":PATH,"read":false,"error":REASON}`.
pub(crate) fn unread_record(
    alloc: Global,
    kind: &str,
    path: &str,
    reason: &str,
) -> Result<String, AllocError>
    ensures { IfOk result (λ line. string_bytes line ≡ unread_text kind.now path.now reason.now) }
{
    let path = quoted(alloc, path)?;
    let reason = quoted(alloc, reason)?;
    format!(in alloc; "{{\"{kind}\":{path},\"read\":false,\"error\":{reason}}}\n")
}

/// The last record: `{"summary":{"documents":N,"refused":N,"unread":N,"faults":N}}`, with the number of warnings if
/// they are told.
pub(crate) fn summary_record(alloc: Global, tally: Tally) -> Result<String, AllocError>
    ensures { IfOk result (λ line. string_bytes line ≡ summary_text tally) }
{
    let Tally {
        documents,
        refused,
        unread,
        faults,
        warnings,
        lints,
        ..
    } = tally;
    let warnings = count_member(alloc, lints.counted(warnings))?;
    format!(in alloc;
        "{{\"summary\":{{\"documents\":{documents},\"refused\":{refused},\"unread\":{unread},\"faults\":{faults}{warnings}}}}}\n"
    )
}
