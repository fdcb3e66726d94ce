//! What a row asks of the checker.

use checker_calls::Layout;
use row_files::{Case, Field, Problem, Way, number, text_of};

/// The fields that rows of the call may have apart from those of every row. None if there is no such call.
pub(crate) fn names_of(call: &str) -> Option<&'static [&'static str]> {
    match call {
        "check_texts" | "lent" => Some(&["nesting", "schema", "document"]),
        "calls" | "series" | "back" => Some(&[
            "nesting",
            "first_text",
            "first_extension",
            "indent",
            "schema",
            "document",
        ]),
        "all" => Some(&["nesting", "indent", "schema", "document", "step"]),
        "run" => Some(&[
            "nesting",
            "indent",
            "schema",
            "document",
            "step",
            "read",
            "write",
            "following",
        ]),
        _ => None,
    }
}

/// The terms on which texts are judged, and how they are written.
#[derive(Clone, Copy)]
pub struct Asked {
    /// How many brackets may be open at once.
    pub nesting: usize,
    /// The number of the first text, and that of the first extension.
    pub text: u64,
    pub extension: u64,
    pub layout: Layout<'static>,
    /// The name of the layout.
    pub(crate) name: &'static str,
    pub(crate) telling: Telling,
}

/// What is told of an accepted document.
#[derive(Clone, Copy)]
pub(crate) enum Telling {
    /// The texts that it and its schema are written as.
    Texts,
    /// What it lends.
    Lent,
    /// The texts under each layout, each by itself, for the road back.
    Pairs,
}

impl Telling {
    /// How the call tells of one.
    fn of(call: &str) -> Telling {
        match call {
            "lent" => Telling::Lent,
            "back" => Telling::Pairs,
            _ => Telling::Texts,
        }
    }
}

/// What the row asks for, under the nesting limit of the way.
pub(crate) fn asked_of(case: Case<'_>, way: Way<'_>) -> Result<Asked, Problem> {
    let (name, layout) = layout_of(case)?;
    Ok(Asked {
        nesting: way.nesting,
        text: number(case.row, "first_text", "1")? as u64,
        extension: number(case.row, "first_extension", "1")? as u64,
        layout,
        name,
        telling: Telling::of(way.call),
    })
}

/// The layout that the row names, as the program's option does, with its name. Without one it is `line`.
fn layout_of(case: Case<'_>) -> Result<(&'static str, Layout<'static>), Problem> {
    match case.row.one("indent")? {
        None => Ok(("line", Layout::OneLine)),
        Some(field) => layout_named(field),
    }
}

/// The layout of this name.
fn layout_named(field: Field<'_>) -> Result<(&'static str, Layout<'static>), Problem> {
    for (name, layout) in layouts() {
        if name == field.value {
            return Ok((name, layout));
        }
    }
    Err(field.problem("no layout has this name"))
}

/// The layouts, with the names that the program's option has for them.
pub fn layouts() -> [(&'static str, Layout<'static>); 4] {
    [
        ("line", Layout::OneLine),
        ("two", Layout::Indented("  ")),
        ("four", Layout::Indented("    ")),
        ("tab", Layout::Indented("\t")),
    ]
}

/// Adds the texts of the row, which must be UTF-8.
pub(crate) fn push_texts<'a>(
    case: Case<'_>,
    texts: &'a [Vec<u8>],
    list: &mut Vec<&'a str>,
) -> Result<(), Problem> {
    for bytes in texts {
        list.push(text_of(case, bytes)?)?;
    }
    Ok(())
}
