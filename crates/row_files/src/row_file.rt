//! Row files: lines, and the rows that they make.

use crate::problem::Problem;
use std::alloc::Global;

/// A line of a row file: `name: value`.
#[derive(Clone, Copy)]
pub struct Field<'a> {
    /// The line's number, counted from 1.
    pub line: usize,
    pub name: &'a str,
    pub value: &'a str,
}

impl Field<'_> {
    /// The problem that this line is not as it must be.
    pub fn problem(self, what: &'static str) -> Problem {
        Problem::Malformed {
            line: self.line,
            what,
        }
    }

    /// Whether rows or what is common to rows begins here.
    fn is_head(self) -> bool {
        self.name == "row" || self.name == "common"
    }
}

/// The fields of a row file, in order. Empty lines and those that begin with `#` are skipped.
pub fn fields_of<'a>(alloc: Global, text: &'a str) -> Result<Vec<Field<'a>>, Problem> {
    let mut fields = Vec::new(alloc);
    for (index, content) in text.lines().enumerate() {
        push_field(&mut fields, index.saturating_add(1), content)?;
    }
    Ok(fields)
}

/// Adds the field in a line, if there is one.
fn push_field<'a>(
    fields: &mut Vec<Field<'a>>,
    line: usize,
    content: &'a str,
) -> Result<(), Problem> {
    if content.is_empty() || content.starts_with('#') {
        return Ok(());
    }
    match field_of(line, content) {
        Some(field) => Ok(fields.push(field)?),
        None => {
            let what = "a line is `name: value`, without a space at its end";
            Err(Problem::Malformed { line, what })
        }
    }
}

/// The field in a line.
fn field_of<'a>(line: usize, content: &'a str) -> Option<Field<'a>> {
    if content.ends_with(' ') {
        return None;
    }
    let (name, value) = match content.split_once(": ") {
        Some(parts) => parts,
        None => (content.strip_suffix(':')?, ""),
    };
    Some(Field { line, name, value })
}

/// A row: its name, its own fields, and the fields of the `common` that it is under.
#[derive(Clone, Copy)]
pub struct Row<'a> {
    pub head: Field<'a>,
    pub common: &'a [Field<'a>],
    pub own: &'a [Field<'a>],
}

impl<'a> Row<'a> {
    /// Whether the row itself has a field of this name.
    pub(crate) fn has(self, name: &str) -> bool {
        for field in self.own {
            if field.name == name {
                return true;
            }
        }
        false
    }

    /// The fields that have those of this name: the row's own, or, if it has none of this name, those in common.
    fn part(self, name: &str) -> &'a [Field<'a>] {
        if self.has(name) {
            self.own
        } else {
            self.common
        }
    }

    /// The one field of this name, if there is one.
    pub fn one(self, name: &str) -> Result<Option<Field<'a>>, Problem> {
        let mut found = None;
        for field in self.part(name) {
            if field.name == name {
                if found.is_some() {
                    return Err(field.problem("the field stands there already"));
                }
                found = Some(*field);
            }
        }
        Ok(found)
    }

    /// The one field of this name; if there is none, one in the row's line with this value.
    pub(crate) fn one_or(self, name: &str, other: &'static str) -> Result<Field<'a>, Problem> {
        match self.one(name)? {
            Some(field) => Ok(field),
            None => Ok(Field {
                value: other,
                ..self.head
            }),
        }
    }

    /// The one field of this name, which must be there.
    pub fn needed(self, name: &str) -> Result<Field<'a>, Problem> {
        match self.one(name)? {
            Some(field) => Ok(field),
            None => Err(self.head.problem("the row lacks a field")),
        }
    }
}

/// The fields from this one on, up to the next head.
pub(crate) fn body<'a>(fields: &'a [Field<'a>], from: usize) -> &'a [Field<'a>] {
    let rest = fields.get(from..).unwrap_or(&[]);
    for (count, field) in rest.iter().enumerate() {
        if field.is_head() {
            return rest.get(..count).unwrap_or(&[]);
        }
    }
    rest
}
