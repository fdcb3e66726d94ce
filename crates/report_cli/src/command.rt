//! The program's arguments.

use clap::{Arg, ArgAction, Command};
use std::alloc::{AllocError, Global};

/// The words for forms.
static FORMS: [&str; 5] = ["text", "short", "json", "github", "sarif"];
/// The words for when the form `text` has colours.
static COLORS: [&str; 3] = ["auto", "always", "never"];
/// The words for what is denied.
static DENIED: [&str; 1] = ["warnings"];

/// The program's command.
pub(crate) fn program_command<'a>(alloc: Global) -> Result<Command<'a>, AllocError> {
    // built first, so that no command is dropped here
    let batch = batch_option(alloc)?;
    let command = command_of_options(alloc)?;
    command
        .arg(batch)?
        .arg(
            Arg::new(alloc, "quiet")
                .long("quiet")
                .action(ArgAction::SetTrue)
                .help("Tells neither counts nor notes on standard error"),
        )?
        .arg(
            Arg::new(alloc, "DOCUMENT")
                .action(ArgAction::Append)
                .num_args(0..)
                .help("The files of the documents, or folders; `-` is standard input"),
        )
}

/// The command with the options for how it is told, and for texts.
fn command_of_options<'a>(alloc: Global) -> Result<Command<'a>, AllocError> {
    Command::new(alloc, "graphql-report")
        .version("0.1.0")
        .about(
            "Checks GraphQL documents over a schema, and tells each fault at its line and column",
        )
        .arg(option(
            alloc,
            "format",
            "FORM",
            "How a fault is told [default: text]",
        )
        .value_parser(FORMS.as_slice()))?
        .arg(color_option(alloc))?
        .arg(warn_option(alloc))?
        .arg(deny_option(alloc))?
        .arg(nesting_option(alloc))?
        .arg(option(
            alloc,
            "max-faults",
            "N",
            "How many faults are told of the schema, and faults or warnings of each document [default: all]",
        )
        .value_parser(clap::value_parser!(usize)))?
        .arg(
            option(
                alloc,
                "schema",
                "FILE",
                "A file of the schema, or a folder for the .graphql and .graphqls files below it; once for each, in order",
            )
            .action(ArgAction::Append)
            .required(true),
        )
}

/// An option with a value.
fn option<'a>(alloc: Global, name: &'a str, value: &'a str, help: &'a str) -> Arg<'a> {
    Arg::new(alloc, name)
        .long(name)
        .value_name(value)
        .help(help)
}

/// The option for when there are colours.
fn color_option<'a>(alloc: Global) -> Arg<'a> {
    option(
        alloc,
        "color",
        "WHEN",
        "When `text` has colours: `auto` is on a terminal where NO_COLOR is empty [default: auto]",
    )
    .value_parser(COLORS.as_slice())
}

/// The option for warnings.
fn warn_option<'a>(alloc: Global) -> Arg<'a> {
    Arg::new(alloc, "warn")
        .long("warn")
        .action(ArgAction::SetTrue)
        .help(
            "Tells what is deprecated, and what the specification does not allow, in what is accepted",
        )
}

/// The option for warnings that count as faults.
fn deny_option<'a>(alloc: Global) -> Arg<'a> {
    option(
        alloc,
        "deny",
        "WHAT",
        "Tells `warnings`, and the status is 1 if there is one",
    )
    .value_parser(DENIED.as_slice())
}

/// The option for how many brackets may be open at once.
fn nesting_option<'a>(alloc: Global) -> Arg<'a> {
    option(
        alloc,
        "nesting",
        "N",
        "How many brackets may be open at once, from 1 to 1000 [default: 500]",
    )
    .value_parser(clap::value_parser!(usize).range(1..=1000))
}

/// The option for documents as lines of JSON.
fn batch_option<'a>(alloc: Global) -> Result<Arg<'a>, AllocError> {
    Arg::new(alloc, "batch")
        .long("batch")
        .action(ArgAction::SetTrue)
        .help(
            "Answers each line {\"id\": .., \"document\": ..} of standard input by a line; {\"id\": .., \"schema\": [..]} opens another schema",
        )
        .conflicts_with("DOCUMENT")?
        .conflicts_with("format")
}
