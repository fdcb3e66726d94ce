//! Answers, and whether they are as a row wants them.

use crate::given::Given;
use crate::lines::Lines;
use crate::plan::{Plan, whole};
use crate::problem::Problem;
use crate::row_file::Row;
use crate::settings::MOST;
use std::alloc::Global;
use std::fmt::Display;

/// What a call answers: the status in words, and the output, which is a text or what a writer took.
pub struct Answer {
    pub status: Lines,
    pub text: Lines,
    pub written: Vec<u8>,
}

impl Drop for Answer {
    fn drop(self) {
        let Answer {
            status: _,
            text: _,
            written: _,
        } = self;
    }
}

impl Answer {
    /// Adds this status, and the text that is shown.
    pub fn show<T: Display>(&mut self, status: &str, shown: &T) {
        self.status.put(status);
        self.text.show(shown);
    }

    /// The bytes of the output.
    fn out(&self) -> &[u8] {
        let text = self.text.as_str();
        if text.is_empty() {
            self.written.as_slice()
        } else {
            text.as_bytes()
        }
    }

    /// Whether it is as the row wants it.
    fn is_wanted(&self, case: Case<'_>) -> bool {
        self.status.as_str() == case.status && self.out() == case.out
    }

    /// Makes it empty. It is no answer if memory was refused.
    fn clear(&mut self) -> Result<(), Problem> {
        self.status.clear();
        self.text.clear();
        self.written.clear();
        if self.status.is_refused() || self.text.is_refused() {
            return Err(Problem::Memory);
        }
        Ok(())
    }
}

/// A row in its file, the call that it is for, what it gives and what it wants.
#[derive(Clone, Copy)]
pub struct Case<'a> {
    pub file: &'a str,
    pub row: Row<'a>,
    pub call: &'a str,
    pub given: &'a Given,
    pub status: &'a str,
    pub out: &'a [u8],
}

/// In which way a call was made, for the reader of a difference.
#[derive(Clone, Copy)]
pub struct Way<'a> {
    pub call: &'a str,
    pub document: &'a [u8],
    /// The limit of nesting.
    pub nesting: usize,
    pub plan: Plan,
}

impl<'a> Way<'a> {
    /// The way of a call without devices.
    pub fn whole(call: &'a str, document: &'a [u8], nesting: usize) -> Way<'a> {
        Way {
            call,
            document,
            nesting,
            plan: whole(),
        }
    }
}

/// How much was judged, and what is to be told.
pub struct Tally {
    pub files: u64,
    pub rows: u64,
    pub answers: u64,
    pub differences: u64,
    /// What the call answers, until it is compared.
    pub answer: Answer,
    /// The differences, the first one of each row, and what is wrong with files, in lines.
    pub told: Lines,
    /// Whether a difference of this row is told.
    pub is_row_told: bool,
    /// Whether rows were not judged because a file is not as it must be.
    pub is_stopped: bool,
}

impl Drop for Tally {
    fn drop(self) {
        let Tally {
            files: _,
            rows: _,
            answers: _,
            differences: _,
            answer: _,
            told: _,
            is_row_told: _,
            is_stopped: _,
        } = self;
    }
}

impl Tally {
    /// Nothing is judged yet.
    pub fn new(alloc: Global) -> Tally {
        Tally {
            files: 0,
            rows: 0,
            answers: 0,
            differences: 0,
            answer: Answer {
                status: Lines::new(alloc),
                text: Lines::new(alloc),
                written: Vec::new(alloc),
            },
            told: Lines::new(alloc),
            is_row_told: false,
            is_stopped: false,
        }
    }
}

/// Counts the answer, empties it, and tells it if it is not as the row wants it: only the first such answer of a row.
pub fn compare(case: Case<'_>, way: Way<'_>, tally: &mut Tally) -> Result<(), Problem> {
    tally.answers = tally.answers.saturating_add(1);
    if !tally.answer.is_wanted(case) {
        tally.differences = tally.differences.saturating_add(1);
        if !tally.is_row_told {
            tell_difference(case, way, &tally.answer, &mut tally.told);
        }
        tally.is_row_told = true;
    }
    tally.answer.clear()
}

/// Tells of a difference: which row it is, in which way it was run, what was wanted and what came.
fn tell_difference(case: Case<'_>, way: Way<'_>, answer: &Answer, told: &mut Lines) {
    let head = case.row.head;
    tell_place(case.file, head.line, head.value, told);
    tell_way(way, told);
    tell_answer("  wanted: ", case.status, case.out, told);
    tell_answer("  got: ", answer.status.as_str(), answer.out(), told);
}

/// Tells of a place in a file.
pub(crate) fn tell_place(file: &str, line: usize, what: &str, told: &mut Lines) {
    told.show_between(file, &":", "");
    told.show_between("", &line, ": ");
    told.show_between(what, &"\n", "");
}

/// Tells in which way it was run, and where devices end: how many bytes a call, the number of the text that ends, after
/// how many bytes it does, and after how many the output does.
fn tell_way(way: Way<'_>, told: &mut Lines) {
    let plan = way.plan;
    told.show_between("  ", &way.call, " of ");
    told.show_between(
        "`",
        &way.document.escape_ascii(),
        "`, nesting, step, text, read, write:",
    );
    for number in [way.nesting, plan.step, plan.text, plan.read, plan.write] {
        tell_number(number, told);
    }
    told.put("\n");
}

/// Tells a number as rows write it.
fn tell_number(number: usize, told: &mut Lines) {
    if number == usize::MAX {
        told.show_between(" ", &MOST, "");
    } else {
        told.show_between(" ", &number, "");
    }
}

/// Tells an answer.
fn tell_answer(word: &str, status: &str, out: &[u8], told: &mut Lines) {
    told.show_between(word, &status, " ");
    told.show_between("`", &out.escape_ascii(), "`\n");
}
