//! The command line.

ghost use Rattle.std.specs.Prelude.{◌≡◌, IfOk, false};
ghost use Rattle.clap.specs.Words.{app_of, kind_of};
ghost use Rattle.clap.specs.declared.builder.command.Command.TheViews.{out-Command};
ghost use Rattle.clap.specs.declared.error.kind.ErrorKind.TheVariants.{MissingSubcommand};
ghost use Rattle.jp_lines.specs.CommandLine.{columns_app, jp_lines, keep_app, lines_app, queries_app};
ghost use Rattle.jp_lines.specs.CommandLine.{values_app, with_columns, with_files, with_keep};
ghost use Rattle.jp_lines.specs.CommandLine.{with_limits, with_line_flags, with_line_numbers};
ghost use Rattle.jp_lines.specs.CommandLine.{with_lines, with_number, with_selections, with_tellings};
ghost use Rattle.jp_lines.specs.CommandLine.{with_values};

use crate::help::{AFTER_HELP, BOTH, COLUMNS, COUNT, EVAL, KEEP, PATHS};
use clap::builder::ValueParser;
use clap::error::ErrorKind;
use clap::{Arg, ArgAction, Command, Error, value_parser};
use jp_command::{CommandHelp, query_command, with_flag};
use std::alloc::{AllocError, Global};

/// The version of the program.
const VERSION: &str = "0.1.0";

/// The command with the option `--name` more, whose value is a number that the parser takes.
fn with_number<'w>(
    alloc: Global,
    command: Command<'w>,
    name: &'w str,
    parser: ValueParser<'w>,
    help: &'w str,
) -> Result<Command<'w>, AllocError>
    ensures shape { IfOk result (λ more.
        app_of more ≡ with_number (app_of command.entry) name.entry.now parser.entry) }
    ensures local { IfOk result (λ more.
        (out-Command more).has_globals ≡ (out-Command command.entry).has_globals) }
{
    let number = Arg::new(alloc, name)
        .long(name)
        .value_name("N")
        .action(ArgAction::Set)
        .value_parser(parser)
        .help(help);
    command.arg(number)
}

/// The command whose further positionals are the names of inputs.
fn with_files<'w>(alloc: Global, command: Command<'w>) -> Result<Command<'w>, AllocError>
    ensures shape { IfOk result (λ more. app_of more ≡ with_files (app_of command.entry)) }
    ensures local { IfOk result (λ more.
        (out-Command more).has_globals ≡ (out-Command command.entry).has_globals) }
{
    let files = Arg::new(alloc, "FILE").action(ArgAction::Append).help(
        "Files of JSON documents, one a line; - and none are the standard input",
    );
    command.arg(files)
}

/// The command with the flags and the options of a run over lines.
fn with_line_flags<'w>(alloc: Global, command: Command<'w>) -> Result<Command<'w>, AllocError>
    ensures shape { IfOk result (λ more. app_of more ≡ with_line_flags (app_of command.entry)) }
    ensures local { IfOk result (λ more.
        (out-Command more).has_globals ≡ (out-Command command.entry).has_globals) }
{
    let command = with_flag(
        alloc,
        command,
        "whole",
        "Takes whole numbers of 64 bits alone",
    )?;
    let command = with_flag(
        alloc,
        command,
        "number",
        "Begins each line with the number of the input's line",
    )?;
    let command = with_flag(
        alloc,
        command,
        "keep-going",
        "Goes on after a line that is refused, or a file that can't be read",
    )?;
    let command = with_flag(
        alloc,
        command,
        "line-buffered",
        "Flushes the output after each document",
    )?;
    let command = with_tellings(alloc, command)?;
    with_line_numbers(alloc, command)
}

/// The command with the flags that say what a run tells.
fn with_tellings<'w>(alloc: Global, command: Command<'w>) -> Result<Command<'w>, AllocError>
    ensures shape { IfOk result (λ more. app_of more ≡ with_tellings (app_of command.entry)) }
    ensures local { IfOk result (λ more.
        (out-Command more).has_globals ≡ (out-Command command.entry).has_globals) }
{
    let command = with_flag(
        alloc,
        command,
        "explain",
        "Tells why a line is no document, and where",
    )?;
    let command = with_flag(
        alloc,
        command,
        "exit-status",
        "Ends with status 6 where nothing is selected in any document",
    )?;
    with_flag(
        alloc,
        command,
        "summary",
        "Tells at the end how many lines, documents and nodes there were",
    )
}

/// The command with the options of a run over lines, whose values are numbers.
fn with_line_numbers<'w>(alloc: Global, command: Command<'w>) -> Result<Command<'w>, AllocError>
    ensures shape { IfOk result (λ more. app_of more ≡ with_line_numbers (app_of command.entry)) }
    ensures local { IfOk result (λ more.
        (out-Command more).has_globals ≡ (out-Command command.entry).has_globals) }
{
    let command = with_number(
        alloc,
        command,
        "reports",
        value_parser!(u64),
        "Tells at most N refused lines one by one, and how many more there are",
    )?;
    with_limits(alloc, command)
}

/// The command with the options that limit what is done for one document.
fn with_limits<'w>(alloc: Global, command: Command<'w>) -> Result<Command<'w>, AllocError>
    ensures shape { IfOk result (λ more. app_of more ≡ with_limits (app_of command.entry)) }
    ensures local { IfOk result (λ more.
        (out-Command more).has_globals ≡ (out-Command command.entry).has_globals) }
{
    let command = with_number(
        alloc,
        command,
        "limit",
        value_parser!(u64).range(1..),
        "Gives a document up after N steps of its evaluation",
    )?;
    let command = with_number(
        alloc,
        command,
        "max-nodes",
        value_parser!(u64).range(1..),
        "Refuses a document in which more than N nodes are selected",
    )?;
    with_number(
        alloc,
        command,
        "max-bytes",
        value_parser!(u64).range(1..),
        "Refuses a document of which more than N bytes are to be written",
    )
}

/// A subcommand with a query, names of inputs, and all flags and options.
#[tactic(auto, unfolding(crate::specs::CommandLine::lines_app))]
fn lines_command<'w>(
    alloc: Global,
    name: &'w str,
    help: CommandHelp,
) -> Result<Command<'w>, AllocError>
    ensures shape { IfOk result (λ command. app_of command ≡ lines_app name.entry.now) }
    ensures local { IfOk result (λ command. (out-Command command).has_globals ≡ false) }
{
    let command = query_command(alloc, name, help)?;
    let command = with_files(alloc, command)?;
    let command = with_line_flags(alloc, command)?;
    with_flag(
        alloc,
        command,
        "first",
        "Goes no further than the first node of each document",
    )
}

/// A subcommand with a query and files, all flags, the limit, and the flag `--raw`.
#[tactic(auto, unfolding(crate::specs::CommandLine::values_app))]
fn values_command<'w>(
    alloc: Global,
    name: &'w str,
    help: CommandHelp,
) -> Result<Command<'w>, AllocError>
    ensures shape { IfOk result (λ command. app_of command ≡ values_app name.entry.now) }
    ensures local { IfOk result (λ command. (out-Command command).has_globals ≡ false) }
{
    let command = lines_command(alloc, name, help)?;
    with_flag(alloc, command, "raw", "Writes a text without quotes")
}

/// A subcommand with one query or more, names of inputs behind them, and the flag `--extended`.
#[tactic(auto, unfolding(crate::specs::CommandLine::queries_app))]
fn queries_command<'w>(
    alloc: Global,
    name: &'w str,
    help: CommandHelp,
) -> Result<Command<'w>, AllocError>
    ensures shape { IfOk result (λ command. app_of command ≡ queries_app name.entry.now) }
    ensures local { IfOk result (λ command. (out-Command command).has_globals ≡ false) }
{
    let queries = Arg::new(alloc, "QUERY")
        .required(true)
        .action(ArgAction::Append)
        .help(
            "JSONPath queries, which begin with $, and behind them files; - is the standard input",
        );
    let command = Command::new(alloc, name)
        .about(help.about)
        .override_usage(help.usage)
        .after_help(help.example)
        .arg(queries)?;
    with_flag(alloc, command, "extended", "Lets the queries call distinct")
}

/// The subcommand `columns`.
#[tactic(auto, unfolding(crate::specs::CommandLine::columns_app))]
fn columns_command<'w>(alloc: Global) -> Result<Command<'w>, AllocError>
    ensures shape { IfOk result (λ command. app_of command ≡ columns_app) }
    ensures local { IfOk result (λ command. (out-Command command).has_globals ≡ false) }
{
    let command = queries_command(alloc, "columns", COLUMNS)?;
    let command = with_line_flags(alloc, command)?;
    let command = with_flag(
        alloc,
        command,
        "csv",
        "Writes comma-separated values (RFC 4180) in place of tabs",
    )?;
    let command = with_flag(
        alloc,
        command,
        "raw",
        "Writes a text that stands alone without quotes",
    )?;
    with_flag(alloc, command, "names", "Writes the queries as a first row")
}

/// The subcommand with an expression, names of inputs, and the flags and options of a run over lines.
#[tactic(auto, unfolding(crate::specs::CommandLine::keep_app))]
fn keep_command<'w>(alloc: Global) -> Result<Command<'w>, AllocError>
    ensures shape { IfOk result (λ command. app_of command ≡ keep_app) }
    ensures local { IfOk result (λ command. (out-Command command).has_globals ≡ false) }
{
    let expression = Arg::new(alloc, "EXPRESSION").required(true).help(
        "An expression of a filter, such as '@.a > 1'; @ and $ are the document",
    );
    let command = Command::new(alloc, "keep")
        .about(KEEP.about)
        .override_usage(KEEP.usage)
        .after_help(KEEP.example)
        .arg(expression)?;
    let command = with_flag(
        alloc,
        command,
        "extended",
        "Lets the expression call distinct",
    )?;
    let command = with_files(alloc, command)?;
    with_line_flags(alloc, command)
}

/// The command with one such subcommand more.
fn with_lines<'w>(
    alloc: Global,
    command: Command<'w>,
    name: &'w str,
    help: CommandHelp,
) -> Result<Command<'w>, AllocError>
    ensures { IfOk result (λ more.
        app_of more ≡ with_lines (app_of command.entry) name.entry.now) }
{
    command.subcommand(lines_command(alloc, name, help)?)
}

/// The command with one subcommand more that has `--raw` besides.
fn with_values<'w>(
    alloc: Global,
    command: Command<'w>,
    name: &'w str,
    help: CommandHelp,
) -> Result<Command<'w>, AllocError>
    ensures { IfOk result (λ more.
        app_of more ≡ with_values (app_of command.entry) name.entry.now) }
{
    command.subcommand(values_command(alloc, name, help)?)
}

/// The command with the subcommands more that have one query.
#[tactic(auto, unfolding(crate::specs::CommandLine::with_selections))]
fn with_selections<'w>(alloc: Global, command: Command<'w>) -> Result<Command<'w>, AllocError>
    ensures { IfOk result (λ more. app_of more ≡ with_selections (app_of command.entry)) }
{
    let command = with_values(alloc, command, "eval", EVAL)?;
    let command = with_lines(alloc, command, "paths", PATHS)?;
    let command = with_values(alloc, command, "both", BOTH)?;
    with_lines(alloc, command, "count", COUNT)
}

/// The command with the subcommand `keep` more.
#[tactic(auto, unfolding(crate::specs::CommandLine::with_keep))]
fn with_keep<'w>(alloc: Global, command: Command<'w>) -> Result<Command<'w>, AllocError>
    ensures { IfOk result (λ more. app_of more ≡ with_keep (app_of command.entry)) }
{
    command.subcommand(keep_command(alloc)?)
}

/// The command with the subcommand `columns` more.
#[tactic(auto, unfolding(crate::specs::CommandLine::with_columns))]
fn with_columns<'w>(alloc: Global, command: Command<'w>) -> Result<Command<'w>, AllocError>
    ensures { IfOk result (λ more. app_of more ≡ with_columns (app_of command.entry)) }
{
    command.subcommand(columns_command(alloc)?)
}

/// The whole command line.
#[tactic(auto, unfolding(crate::specs::CommandLine::jp_lines))]
pub(crate) fn jp_lines_command<'w>(alloc: Global) -> Result<Command<'w>, AllocError>
    ensures { IfOk result (λ command. app_of command ≡ jp_lines) }
{
    let command = with_selections(alloc, Command::new(alloc, "jp-lines"))?;
    let command = with_keep(alloc, command)?;
    let command = with_columns(alloc, command)?
        .version(VERSION)
        .about("Runs a JSONPath query (RFC 9535) over JSON documents, one a line")
        .override_usage("jp-lines <COMMAND>")
        .after_help(AFTER_HELP);
    Ok(command.subcommand_required(true))
}

/// Clap's error for words that it takes and that name no subcommand with a query.
pub(crate) fn no_query(alloc: Global) -> Result<Error, AllocError>
    ensures { IfOk result (λ error. kind_of error ≡ MissingSubcommand) }
{
    jp_lines_command(alloc)?.error(ErrorKind::MissingSubcommand, "no subcommand has a query")
}
