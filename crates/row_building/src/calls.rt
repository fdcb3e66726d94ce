//! The calls that read, print and build.

use crate::by_form::by_form;
use crate::by_text::by_text;
use crate::layouts::by_layouts;
use crate::over_schemas::by_schema_texts;
use crate::read::by_read;
use crate::trees::by_tree;
use row_files::{Calls, Case, Problem, Tally};
use std::alloc::Global;

/// The calls that read texts and print trees, build schemas and find what coordinates name; and those of reports.
#[derive(Clone, Copy)]
pub struct Building;

impl Calls for Building {
    fn names_of(&self, call: &str) -> Option<&'static [&'static str]> {
        match call {
            "print" => Some(&["tree", "input", "layout", "level", "step", "write"]),
            "writable" => Some(&["tree", "input"]),
            "parse_document"
            | "parse_type"
            | "parse_selections"
            | "response_names"
            | "argument_by_name" => Some(&["nesting", "input"]),
            "next_token" => Some(&["input"]),
            "layouts" => Some(&["input", "flat"]),
            "schema" | "orphans" | "extended" => Some(&["schema", "first", "adopt", "ignore"]),
            "coordinate" => Some(&["schema", "form", "input"]),
            "text" | "short" | "json" | "github" => {
                Some(&["severity", "at", "column", "length", "offset", "input"])
            }
            "positions" | "shown" => Some(&["input"]),
            _ => None,
        }
    }

    fn judge(&self, alloc: Global, case: Case<'_>, tally: &mut Tally) -> Result<(), Problem> {
        match case.call {
            "print" | "writable" => by_tree(alloc, case, tally),
            "layouts" => by_layouts(alloc, case, tally),
            "parse_document"
            | "parse_type"
            | "parse_selections"
            | "response_names"
            | "argument_by_name"
            | "next_token" => by_read(alloc, case, tally),
            "text" | "short" | "json" | "github" => by_form(alloc, case, tally),
            "positions" | "shown" => by_text(alloc, case, tally),
            _ => by_schema_texts(alloc, case, tally),
        }
    }
}
