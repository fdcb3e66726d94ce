//! All rows. Its words name the files of its `data/`. How the calls of rows answer is in `row_building`, `row_rules` and `row_texts`;
//! here is what needs the checker, or every rule: the calls of `Library`.
//!
//! Begin with `rules.rt`, then `checks.rt` and `answers.rt`.
#![tactic(auto)]

mod answers;
mod checks;
mod library;
mod rules;

use crate::library::Library;
use row_files::{Calls, Case, Problem, Tally, judge_files};
use row_rules::{Building, Judging};
use row_texts::Checking;
use std::alloc::Global;
use std::process::ExitCode;

/// The calls of all rows.
#[derive(Clone, Copy)]
struct AllCalls<'a> {
    judging: Judging<'a, Library>,
    checking: Checking<'a, Library>,
}

impl Calls for AllCalls<'_> {
    fn names_of(&self, call: &str) -> Option<&'static [&'static str]> {
        Building
            .names_of(call)
            .or(self.judging.names_of(call))
            .or(self.checking.names_of(call))
    }

    fn judge(&self, alloc: Global, case: Case<'_>, tally: &mut Tally) -> Result<(), Problem> {
        if Building.names_of(case.call).is_some() {
            Building.judge(alloc, case, tally)
        } else if self.judging.names_of(case.call).is_some() {
            self.judging.judge(alloc, case, tally)
        } else {
            self.checking.judge(alloc, case, tally)
        }
    }
}

fn main(rt: HostRuntime) -> ExitCode {
    let library = Library { alloc: rt.alloc() };
    let calls = AllCalls {
        judging: Judging { rules: &library },
        checking: Checking { checks: &library },
    };
    judge_files(&rt, &calls)
}
