//! The program `graphql-report` but its calls of the checker: its words, what is printed of many faults, the lines of a batch, its
//! counts and statuses.
//!
//! For the layer above: a line asks for what `specs/Asked.antt` says, and each answer is one line, and so is each record among lines of
//! JSON (`specs/Answers.antt`); a log of SARIF has the results of `specs/Sarif.antt`. Of the entries with one message the first five are
//! printed, the last of them with the number of the others, and no fault of a value that is a variable whose usage is told
//! (`specs/Folding.antt`).
//!
//! Begin with `settings.rt`; faults are told in `telling.rt`, a line of a batch is read in `asked.rt` and answered in `answers.rt`.
#![tactic(auto)]

mod answers;
mod asked;
mod batch;
mod command;
mod ends;
mod files;
mod folders;
mod folding;
mod sarif;
mod settings;
mod tally;
mod telling;

pub use answers::schema_paths;
pub use asked::{Asked, Request, SchemaRequest, Why, request_of};
pub use batch::{
    answer_accepted, answer_refused, answer_schema_accepted, answer_schema_refused, answer_wrong,
    read_request,
};
pub use ends::{read_settings, read_words, tell_end};
pub use files::{Stop, read_document, read_schema};
pub use folding::{Printed, folded};
pub use sarif::{sarif_result, sarif_results};
pub use settings::{Format, LintLevel, Settings};
pub use tally::Tally;
pub use telling::{Telling, lines_of, sources_of, tell_progress};
