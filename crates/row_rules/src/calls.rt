//! The calls that give documents a meaning, and those that judge by rules.

use crate::inputs::{by_inputs, by_parts};
use crate::judged::Judged;
use crate::judged_schemas::judge_schema;
use crate::kept_documents::push_documents;
use crate::rules::Rules;
use crate::schemas::push_rules;
use row_building::{Built, build};
use row_files::{Calls, Case, Problem, Tally, judge};
use std::alloc::Global;

/// The calls that give documents, sets and fields a meaning, and those that judge by these rules.
#[derive(Clone, Copy)]
pub struct Judging<'a, R> {
    pub rules: &'a R,
}

impl<R: Rules> Calls for Judging<'_, R> {
    fn names_of(&self, call: &str) -> Option<&'static [&'static str]> {
        match call {
            "document" | "written" | "fields" | "all_fields" | "root_fields" | "introspection" => {
                Some(&["schema", "standalone", "document"])
            }
            "field_set" | "new_field" => Some(&["schema", "type", "input"]),
            "rules" | "kept" | "noted" => Some(&["schema", "types"]),
            "value" | "covariant" | "assignable" => Some(&["schema", "type", "input"]),
            "directives" => Some(&["schema", "standalone", "location", "input"]),
            "arguments" | "never" | "words" => Some(&["input"]),
            "usage" => Some(&["schema", "input"]),
            "judged_document" | "made" => Some(&["schema", "nesting", "input", "some"]),
            "merging" => Some(&[
                "schema", "nesting", "input", "some", "returns", "at_least", "at_most",
            ]),
            "alone" => Some(&["nesting", "input", "some"]),
            "judged_field_set" => Some(&["schema", "nesting", "type", "input", "some"]),
            _ => None,
        }
    }

    fn judge(&self, alloc: Global, case: Case<'_>, tally: &mut Tally) -> Result<(), Problem> {
        let judged = Judged {
            alloc,
            rules: self.rules,
            case,
        };
        if case.call == "alone" || case.call == "never" || case.call == "words" {
            return by_inputs(&judged, None, tally);
        }
        match build(alloc, case, &mut tally.answer)? {
            Some(mut built) => by_built(&judged, &mut built, tally),
            None => judge(case, &[], tally),
        }
    }
}

/// Judges what is built, the row's documents over it, or each input of the row.
fn by_built<R: Rules>(
    judged: &Judged<'_, R>,
    built: &mut Built,
    tally: &mut Tally,
) -> Result<(), Problem> {
    match judged.case.call {
        "rules" | "kept" | "noted" => {
            push_rules(judged, &mut built.schema, &mut tally.answer)?;
            judge(judged.case, &[], tally)
        }
        "document" | "written" | "fields" | "all_fields" | "root_fields" | "introspection" => {
            push_documents(judged.alloc, judged.case, &built.schema, &mut tally.answer)?;
            judge(judged.case, &[], tally)
        }
        "judged_document" | "made" | "merging" | "judged_field_set" => {
            judge_schema(judged, built)?;
            by_inputs(judged, Some(&built.schema), tally)
        }
        _ => by_parts(judged, &built.schema, tally),
    }
}
