//! Row files: what a line, a row and a field are, and the numbers, texts and outputs that fields stand for; and answers,
//! which are compared with what a row wants.
//!
//! A program of rows is a `main` that passes its calls (`Calls`) to `judge_files`. `FORMAT.md`, next to this folder, has
//! the form of row files.
//!
//! Begin with `program.rt`, `row_file.rt` and `case.rt`. This crate knows no tree and no checker: of `graphql_names` it
//! has places and the devices that end.
#![tactic(auto)]

mod answers;
mod calls;
mod case;
mod escape;
mod given;
mod lines;
mod plan;
mod plans;
mod problem;
mod program;
mod row_file;
mod settings;
mod texts;

pub use answers::{judge, push_faults};
pub use calls::Calls;
pub use case::{Answer, Case, Tally, Way, compare};
pub use given::Given;
pub use lines::Lines;
pub use plan::{Plan, device, endings, reader, whole};
pub use plans::compare_cut;
pub use problem::Problem;
pub use program::judge_files;
pub use row_file::{Field, Row};
pub use settings::{number, says};
pub use texts::{read_of, text_of};
