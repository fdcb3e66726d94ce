//! The program's arguments.

ghost use Rattle.std.specs.Prelude.{◌≡◌, IfOk};
ghost use Rattle.clap.specs.Words.{app_of, rule_of};
ghost use Rattle.clap.specs.declared.builder.value_parser.ValueParser.{ValueParser};
ghost use Rattle.checker_calls.specs.Program.{AreLayoutNames, layout_rule, nesting_rule, document_rule, schemas_rule, program};

use clap::{Arg, ArgAction, Command};
use std::alloc::{AllocError, Global};

/// The words for layouts.
static LAYOUTS: [&str; 4] = ["line", "two", "four", "tab"];

/// The option for the layout.
fn layout_option<'a>(alloc: Global) -> Arg<'a>
    ensures { (names : ValueParser) × AreLayoutNames names × (rule_of result ≡ layout_rule names) }
{
    Arg::new(alloc, "indent")
        .long("indent")
        .value_name("LAYOUT")
        .value_parser(LAYOUTS.as_slice())
        .help("One line, or lines indented by two spaces, four spaces or a tab [default: line]")
}

/// The option for how many brackets may be open at once.
fn nesting_option<'a>(alloc: Global) -> Arg<'a>
    ensures { rule_of result ≡ nesting_rule }
{
    Arg::new(alloc, "nesting")
        .long("nesting")
        .value_name("N")
        .value_parser(clap::value_parser!(usize).range(1..=1000))
        .help("How many brackets may be open at once, from 1 to 1000 [default: 500]")
}

/// The document's path.
fn document_argument<'a>(alloc: Global) -> Arg<'a>
    ensures { rule_of result ≡ document_rule }
{
    Arg::new(alloc, "DOCUMENT")
        .action(ArgAction::Set)
        .required(true)
        .help("The file of the document")
}

/// The schemas' paths, one or more.
fn schemas_argument<'a>(alloc: Global) -> Arg<'a>
    ensures { rule_of result ≡ schemas_rule }
{
    Arg::new(alloc, "SCHEMA")
        .action(ArgAction::Set)
        .num_args(1..)
        .required(true)
        .help("The files of the schema, in order")
}

/// The program's command.
pub(crate) fn program_command<'a>(alloc: Global) -> Result<Command<'a>, AllocError>
    ensures { IfOk result (λ c. (names : ValueParser) × AreLayoutNames names × (app_of c ≡ program names)) }
{
    Command::new(alloc, "graphql-checked")
        .about("Checks a GraphQL document over its schemas: rewrites both, or tells each fault")
        .arg(layout_option(alloc))?
        .arg(nesting_option(alloc))?
        .arg(document_argument(alloc))?
        .arg(schemas_argument(alloc))
}
