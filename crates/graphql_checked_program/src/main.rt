//! Checks the document and the schema texts in the files that it is given, and writes what it finds.
//!
//! Its words are `[--indent line|two|four|tab] [--nesting N] DOCUMENT SCHEMA...`. The libraries read them and do
//! the work: this file opens the files, and tells of faults.
//!
//! Begin with `main.rt`, from its end; then read `settings.rt` of `checker_calls` and `run_texts.rt` of `graphql_checked`.
#![tactic(auto)]

ghost use Rattle.std.specs.Prelude.{◌≡◌, ◌≢◌, false, IfOk};
ghost use Rattle.clap.specs.Words.{kind_of};
ghost use Rattle.graphql_names.specs.Device.{device_failed};
ghost use Rattle.checker_calls.specs.ExitStatus.{status_of};

use clap::Error;
use clap::error::ErrorKind;
use graphql_checked::{Limits, Outcome, RunFault, Settings, exit_status, run};
use graphql_names::Device;
use std::fs::File;
use std::io;
use std::process::ExitCode;

/// The status if the words are wrong.
const WRONG_WORDS: u8 = 2;

/// The words, the program's name first; none if one of them is not UTF-8.
fn words(rt: &HostRuntime) -> Result<Option<Vec<String>>, RunFault> {
    match std::env::args(rt) {
        Ok(args) => Ok(Some(args.collect(rt.alloc())?)),
        Err(error) if error.kind() == io::ErrorKind::OutOfMemory => Err(RunFault::Memory),
        Err(_) => Ok(None),
    }
}

/// Opens the file, which is text `number`.
fn open(rt: &HostRuntime, path: &str, number: usize) -> Result<Device<File>, RunFault>
    ensures { IfOk result (λ d. device_failed d ≡ false) }
{
    match File::open(rt, path) {
        Ok(file) => Ok(Device::new(file)),
        Err(error) if error.kind() == io::ErrorKind::OutOfMemory => Err(RunFault::Memory),
        Err(_) => Err(RunFault::Reader(number)),
    }
}

/// Opens the files, the schemas first and in order, and then runs over them, onto standard output.
fn run_files(rt: &HostRuntime, settings: &Settings) -> Result<Outcome, RunFault> {
    let mut readers = Vec::new(rt.alloc());
    for path in &settings.schemas {
        // Saturating: no bound on how many words there are is known here.
        readers.push(open(rt, path, readers.len().saturating_add(1))?)?;
    }
    let number = readers.len().saturating_add(1);
    let mut document = open(rt, &settings.document, number)?;
    let mut out = Device::new(rt.stdout());
    let limits = Limits {
        nesting: settings.nesting,
    };
    run(
        rt.alloc(),
        &mut readers,
        &mut document,
        limits,
        settings.layout,
        &mut out,
    )
}

/// Tells of a fault, if there is one, and gives the status.
fn told(rt: &impl Eprint, answer: Result<Outcome, RunFault>) -> u8
    ensures { result ≡ status_of answer }
{
    if let Err(fault) = answer {
        // If standard error fails, it can be told nowhere.
        let _ = eprintln!(rt; "{fault}");
    }
    exit_status(&answer)
}

/// Tells why there are no settings, and gives the status. The help goes to standard output, as it was asked for.
fn told_of_words(rt: &HostRuntime, error: &Error) -> u8
    ensures memory { kind_of error.now ≡ ErrorKind.OutOfMemory → result ≡ 4 }
    ensures mistake { kind_of error.now ≢ ErrorKind.OutOfMemory → kind_of error.now ≢ ErrorKind.DisplayHelp
        → kind_of error.now ≢ ErrorKind.DisplayVersion → result ≡ 2 }
{
    if error.kind() == ErrorKind::OutOfMemory {
        return told(rt, Err(RunFault::Memory));
    }
    let printed = error.print(rt);
    if error.use_stderr() {
        return WRONG_WORDS;
    }
    match printed {
        Ok(()) => 0,
        Err(_) => told(rt, Err(RunFault::Writer(0))),
    }
}

/// Runs over the files that the words name, and gives the status.
fn status(rt: &HostRuntime, words: &[String]) -> u8 {
    match Settings::from_words(rt.alloc(), words) {
        Ok(settings) => told(rt, run_files(rt, &settings)),
        Err(error) => told_of_words(rt, &error),
    }
}

fn main(rt: HostRuntime) -> ExitCode {
    let status = match words(&rt) {
        Ok(Some(words)) => status(&rt, &words),
        Ok(None) => {
            let _ = eprintln!(rt; "error: a word is not UTF-8");
            WRONG_WORDS
        }
        Err(fault) => told(&rt, Err(fault)),
    };
    ExitCode::from(status)
}
