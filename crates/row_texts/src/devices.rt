//! The readers that a run is given, and how it ends.

ghost use Rattle.std.specs.Prelude.{◌≡◌, false, All, IfOk};
ghost use Rattle.graphql_names.specs.Device.{device_failed};

use checker_calls::{Outcome, RunFault, exit_status};
use graphql_names::{Cut, Device};
use row_files::{Lines, Plan, reader};
use std::alloc::{AllocError, Global};

/// The readers of the schema texts.
pub(crate) fn readers<'a>(
    alloc: Global,
    schemas: &'a [Vec<u8>],
    plan: Plan,
) -> Result<Vec<Device<Cut<&'a [u8]>>>, AllocError>
    ensures { IfOk result (λ v. All (λ d. device_failed d ≡ false) v.items) }
{
    let mut devices = Vec::new(alloc);
    for text in schemas {
        let number = devices.len().saturating_add(1);
        devices.push(reader(text.as_slice(), plan, number))?;
    }
    Ok(devices)
}

/// The number of the first reader that has failed, or 0. The document's reader is the last.
pub(crate) fn failed_reader(schemas: &[Device<Cut<&[u8]>>], document: bool) -> usize {
    for (index, schema) in schemas.iter().enumerate() {
        if schema.failed() {
            return index.saturating_add(1);
        }
    }
    if document {
        return schemas.len().saturating_add(1);
    }
    0
}

/// Adds how a run ends: its status in words, or that a device has failed other than the one that its answer tells. Those
/// that failed are the reader of this number, if it is not 0, and the writer, if that is said.
pub(crate) fn push_end(
    answer: Result<Outcome, RunFault>,
    failed: (usize, bool),
    words: &mut Lines,
) {
    let told = told_failures(answer);
    if told.0 != failed.0 || told.1 != failed.1 {
        words.put("another device has failed than the answer tells");
    } else {
        push_status(answer, words);
    }
}

/// The number of the reader that has failed by the answer, or 0, and whether the writer has.
fn told_failures(answer: Result<Outcome, RunFault>) -> (usize, bool) {
    match answer {
        Err(RunFault::Reader(number)) => (number, false),
        Err(RunFault::Writer(_)) => (0, true),
        _ => (0, false),
    }
}

/// Adds the status in words: the program's status, and the fault, for a writer with the number of bytes.
fn push_status(answer: Result<Outcome, RunFault>, words: &mut Lines) {
    words.show(&exit_status(&answer));
    match answer {
        Ok(_) => {}
        Err(RunFault::Writer(out)) => words.show_between(" output failed ", &out, ""),
        Err(fault) => words.show_between(" ", &fault, ""),
    }
}
