//! What calls are given, and what they answer: texts as they are read, settings and layouts, devices; refusals, verdicts, and
//! the bytes of an answer.
//!
//! For the layers above:
//! - **Texts**: a text has its tree exactly when it is read within the limit on brackets (`read` of `reading.rt`); the texts that
//!   were added are in order, with what reading them gave (`SchemaTexts`, by `IsReadingOf` of `specs/TextsView.antt`). What a
//!   checker answers where texts are not accepted is a [`Refusal`].
//! - **Settings and layouts**: a written text is that of the document's tree under the layout's prefix (`specs/Layouts.antt`), and
//!   what begins a line may be read again where `is_prefix` says so (`layout.rt`). Settings are what is under the names of the
//!   program's arguments, read by `clap` (`specs/Program.antt`, `specs/ReadSettings.antt`; `command.rt`).
//! - **Devices**: readers are read to their ends, in turn, and what they hold is a text where it is UTF-8 (`read_device.rt`). An
//!   answer is written whole (`write_device.rt`).
//! - **Answers**: an answer is `accepted` and two written texts, or `refused` and a line for each fault (`answer.rt`). It is made
//!   before it is written, in parts; a long one that is repeated is kept once (`parts.rt`). How a run ends has a status
//!   (`run_fault.rt`, `status.rt`). A call that judges texts gives a verdict (`verdict.rt`), that of a refusal among others
//!   (`refusals.rt`).
//!
//! Begin with `schema_texts.rt`, `layout.rt` and `settings.rt`; then `specs/Devices.antt` here, and `specs/Answer.antt` of
//! `verdict_definitions`.
#![tactic(auto)]

mod answer;
mod command;
mod layout;
mod parts;
mod read_device;
mod reading;
mod refusal;
mod refusals;
mod run_fault;
mod schema_texts;
mod settings;
mod status;
mod verdict;
mod write_device;

pub use answer::{accepted, refused};
pub use layout::{Layout, written};
pub use parts::Parts;
pub use read_device::{TextFault, numbered, read_text, read_texts};
pub use reading::{Unread, read};
pub use refusal::{Refusal, only};
pub use refusals::{refusal_answer, verdict_of};
pub use run_fault::{Outcome, RunFault};
pub use schema_texts::{SchemaTexts, next_number};
pub use settings::Settings;
pub use status::exit_status;
pub use verdict::{CheckError, Verdict};
pub use write_device::put;

// From the crates below, for those above.
pub use verdict_definitions::{Details, DiagnosticList, Schema, SchemaBuilder};
