//! Reading the words of a command line.

ghost use Rattle.std.specs.Prelude.{◌≡◌, ◌⊎◌, Some, None, IfOk, IfErr, [], false, map};
ghost use Rattle.std.specs.Prelude.{option_and_then, option_map, string_bytes};
ghost use Rattle.clap.specs.Words.{IsAmong, app_of, fault_of, found_of, kind_of, rows_of};
ghost use Rattle.clap.specs.Words.{subcommand_of, subcommand_rows_of};
ghost use Rattle.clap.specs.declared.builder.command.Command.TheViews.{out-Command};
ghost use Rattle.clap.specs.declared.error.kind.ErrorKind.TheVariants.{MissingSubcommand, OutOfMemory};
ghost use Rattle.jp_command.specs.CommandLine.{asked, asked_by, flagged, flags_asked, is_set, jp};
ghost use Rattle.jp_command.specs.CommandLine.{nodes_app, numbers_app, profile_asked, query_app};
ghost use Rattle.jp_command.specs.CommandLine.{task_app, task_called, with_flag, with_nodes_task, with_task};
ghost use Rattle.jp_command.specs.CommandLine.{with_raw_task};
ghost use Rattle.jp_command.specs.Private.Asked.{HasNoTask, parts_of};

use crate::form::Form;
use crate::help::{AFTER_HELP, BOTH, CANON, CHECK, CommandHelp, EVAL, PATHS};
use crate::node_task::NodeTask;
use clap::error::ErrorKind;
use clap::{Arg, ArgAction, ArgMatches, Command, Error};
use jp_check::Profile;
use std::alloc::{AllocError, Global};

/// The version of the program.
const VERSION: &str = "0.1.0";

/// What a subcommand does with its query.
#[derive(Debug, Clone, Copy, PartialEq, Eq)]
pub(crate) enum Task {
    /// `check`: writes a line if the query is accepted.
    Check,
    /// `canon`: writes the canonical text.
    Canon,
    /// `eval`, `paths` and `both`: writes a line for each of these nodes.
    Eval(NodeTask),
}

/// What the flags of a subcommand say of nodes.
#[derive(Debug, Clone, Copy)]
pub(crate) struct NodeFlags {
    /// Whether the flag `--raw` is given.
    pub(crate) is_raw: bool,
    /// Whether the flag `--first` is given.
    pub(crate) is_first: bool,
    /// Whether the flag `--exit-status` is given.
    pub(crate) tells_none: bool,
}

/// The nodes in that form, of which the flags say which.
fn flagged(flags: NodeFlags, form: Form) -> Task
    ensures { result ≡ flagged flags form }
{
    Task::Eval(NodeTask {
        form,
        is_first: flags.is_first,
        tells_none: flags.tells_none,
    })
}

/// The task that a subcommand's name stands for, with these flags.
fn task_named(name: &str, flags: NodeFlags) -> Option<Task>
    ensures { result ≡ task_called name.now flags }
{
    match name {
        "check" => Some(Task::Check),
        "canon" => Some(Task::Canon),
        "eval" if flags.is_raw => Some(flagged(flags, Form::RAW_VALUES)),
        "eval" => Some(flagged(flags, Form::VALUES)),
        "paths" => Some(flagged(flags, Form::PATHS)),
        "both" if flags.is_raw => Some(flagged(flags, Form::RAW_BOTH)),
        "both" => Some(flagged(flags, Form::BOTH)),
        _ => None,
    }
}

/// The command with one flag more, `--name`, which is on or off.
pub fn with_flag<'w>(
    alloc: Global,
    command: Command<'w>,
    name: &'w str,
    help: &'w str,
) -> Result<Command<'w>, AllocError>
    ensures shape { IfOk result (λ more.
        app_of more ≡ with_flag (app_of command.entry) name.entry.now) }
    ensures local { IfOk result (λ more.
        (out-Command more).has_globals ≡ (out-Command command.entry).has_globals) }
{
    let flag = Arg::new(alloc, name)
        .long(name)
        .action(ArgAction::SetTrue)
        .help(help);
    command.arg(flag)
}

/// A subcommand with a query and the flag `--extended`.
#[tactic(auto, unfolding(crate::specs::CommandLine::query_app))]
pub fn query_command<'w>(
    alloc: Global,
    name: &'w str,
    help: CommandHelp,
) -> Result<Command<'w>, AllocError>
    ensures shape { IfOk result (λ command. app_of command ≡ query_app name.entry.now) }
    ensures local { IfOk result (λ command. (out-Command command).has_globals ≡ false) }
{
    let query = Arg::new(alloc, "QUERY")
        .required(true)
        .help("A JSONPath query, such as $.a[0]");
    let command = Command::new(alloc, name)
        .about(help.about)
        .override_usage(help.usage)
        .after_help(help.example)
        .arg(query)?;
    with_flag(alloc, command, "extended", "Lets the query call distinct")
}

/// A subcommand of `query_command` with the flag `--decimals`.
fn numbers_command<'w>(
    alloc: Global,
    name: &'w str,
    help: CommandHelp,
) -> Result<Command<'w>, AllocError>
    ensures shape { IfOk result (λ command. app_of command ≡ numbers_app name.entry.now) }
    ensures local { IfOk result (λ command. (out-Command command).has_globals ≡ false) }
{
    let command = query_command(alloc, name, help)?;
    with_flag(
        alloc,
        command,
        "decimals",
        "Takes numbers as exact decimals, not whole ones alone",
    )
}

/// A subcommand of `numbers_command` with the flag `--explain`.
fn task_command<'w>(
    alloc: Global,
    name: &'w str,
    help: CommandHelp,
) -> Result<Command<'w>, AllocError>
    ensures shape { IfOk result (λ command. app_of command ≡ task_app name.entry.now) }
    ensures local { IfOk result (λ command. (out-Command command).has_globals ≡ false) }
{
    let command = numbers_command(alloc, name, help)?;
    with_flag(
        alloc,
        command,
        "explain",
        "Tells why a query or a document is refused",
    )
}

/// The command with one such subcommand more.
fn with_task<'w>(
    alloc: Global,
    command: Command<'w>,
    name: &'w str,
    help: CommandHelp,
) -> Result<Command<'w>, AllocError>
    ensures { IfOk result (λ more.
        app_of more ≡ with_task (app_of command.entry) name.entry.now) }
{
    command.subcommand(task_command(alloc, name, help)?)
}

/// A subcommand of `task_command` that writes nodes, and so has the flags `--first` and `--exit-status`.
fn nodes_command<'w>(
    alloc: Global,
    name: &'w str,
    help: CommandHelp,
) -> Result<Command<'w>, AllocError>
    ensures shape { IfOk result (λ command. app_of command ≡ nodes_app name.entry.now) }
    ensures local { IfOk result (λ command. (out-Command command).has_globals ≡ false) }
{
    let command = task_command(alloc, name, help)?;
    let about = "Goes no further than the first node";
    let command = with_flag(alloc, command, "first", about)?;
    let about = "Ends with status 6 where no node is selected";
    with_flag(alloc, command, "exit-status", about)
}

/// The command with one such subcommand more.
fn with_nodes_task<'w>(
    alloc: Global,
    command: Command<'w>,
    name: &'w str,
    help: CommandHelp,
) -> Result<Command<'w>, AllocError>
    ensures { IfOk result (λ more.
        app_of more ≡ with_nodes_task (app_of command.entry) name.entry.now) }
{
    command.subcommand(nodes_command(alloc, name, help)?)
}

/// The command with one such subcommand more that writes values, and so has the flag `--raw`.
fn with_raw_task<'w>(
    alloc: Global,
    command: Command<'w>,
    name: &'w str,
    help: CommandHelp,
) -> Result<Command<'w>, AllocError>
    ensures { IfOk result (λ more.
        app_of more ≡ with_raw_task (app_of command.entry) name.entry.now) }
{
    let nodes = nodes_command(alloc, name, help)?;
    let about = "Writes texts by their characters, without quotes";
    command.subcommand(with_flag(alloc, nodes, "raw", about)?)
}

/// The whole command line.
#[tactic(auto, unfolding(crate::specs::CommandLine::jp))]
fn jp_command<'w>(alloc: Global) -> Result<Command<'w>, AllocError>
    ensures { IfOk result (λ command. app_of command ≡ jp) }
{
    let command = Command::new(alloc, "jp")
        .version(VERSION)
        .about("Runs JSONPath queries (RFC 9535) over JSON documents")
        .after_help(AFTER_HELP);
    let command = with_task(alloc, command, "check", CHECK)?;
    let command = with_task(alloc, command, "canon", CANON)?;
    let command = with_raw_task(alloc, command, "eval", EVAL)?;
    let command = with_nodes_task(alloc, command, "paths", PATHS)?;
    let command = with_raw_task(alloc, command, "both", BOTH)?;
    Ok(command.subcommand_required(true))
}

/// The matches of `words` by the command line.
fn matches_of<'w>(alloc: Global, words: &'w [String]) -> Result<ArgMatches<'w>, Error>
    ensures taken { IfOk result (λ _. fault_of jp (map string_bytes words.entry.now) ≡ []) }
    ensures entered { IfOk result (λ matches. subcommand_rows_of matches
        ≡ subcommand_of jp (map string_bytes words.entry.now)) }
    ensures refused { IfErr result (λ error. (kind_of error ≡ OutOfMemory)
        ⊎ IsAmong (kind_of error) (fault_of jp (map string_bytes words.entry.now))) }
{
    let command = jp_command(alloc)?;
    command.try_get_matches_from(words)
}

/// Whether a flag, which is on or off, is given in the matches of a subcommand.
pub fn is_set(found: &ArgMatches, flag: &str) -> bool
    ensures { result ≡ is_set flag.now (rows_of (found_of found.now)) }
{
    found.get_one::<bool>(flag).unwrap_or(false)
}

/// What the flags in the matches of a subcommand say of nodes.
fn flags_asked(found: &ArgMatches) -> NodeFlags
    ensures { result ≡ flags_asked (rows_of (found_of found.now)) }
{
    NodeFlags {
        is_raw: is_set(found, "raw"),
        is_first: is_set(found, "first"),
        tells_none: is_set(found, "exit-status"),
    }
}

/// The profile that the matches of a subcommand ask for.
fn profile_asked(found: &ArgMatches) -> Profile
    ensures { result ≡ profile_asked (rows_of (found_of found.now)) }
{
    match (is_set(found, "decimals"), is_set(found, "extended")) {
        (false, false) => Profile::Standard,
        (false, true) => Profile::Extended,
        (true, false) => Profile::Decimal,
        (true, true) => Profile::ExtendedDecimal,
    }
}

/// What a command line asks for.
#[derive(Debug, Clone, Copy)]
pub(crate) struct Asked<'w> {
    pub(crate) task: Task,
    pub(crate) query: &'w str,
    pub(crate) profile: Profile,
    /// Whether the flag `--explain` is given.
    pub(crate) is_explaining: bool,
}

/// What the subcommand `name` with the matches `found` asks for.
fn asked_by<'w>(name: &str, found: &ArgMatches<'w>) -> Option<Asked<'w>>
    ensures { option_map parts_of result ≡ asked_by (name.now, rows_of (found_of found.now)) }
{
    let task = task_named(name, flags_asked(found))?;
    let query = found.get_str("QUERY")?;
    Some(Asked {
        task,
        query,
        profile: profile_asked(found),
        is_explaining: is_set(found, "explain"),
    })
}

/// What the subcommand in `matches` asks for.
fn asked_in<'w>(matches: &ArgMatches<'w>) -> Option<Asked<'w>>
    ensures { option_map parts_of result
        ≡ option_and_then asked_by (subcommand_rows_of matches.now) }
{
    let (name, found) = matches.subcommand()?;
    asked_by(name, found)
}

/// What `words`, of which the first is the program's name, ask for, or clap's error.
pub(crate) fn read_words<'w>(alloc: Global, words: &'w [String]) -> Result<Asked<'w>, Error>
    ensures asked { IfOk result (λ found.
        asked (map string_bytes words.entry.now) ≡ Some (parts_of found)) }
    ensures refused { IfErr result (λ error. (kind_of error ≡ OutOfMemory)
        ⊎ HasNoTask (kind_of error) (map string_bytes words.entry.now)) }
{
    let matches = matches_of(alloc, words)?;
    match asked_in(&matches) {
        Some(asked) => Ok(asked),
        None => Err(no_task(alloc)?),
    }
}

/// Clap's error for words that it takes and that name no task with a query.
fn no_task(alloc: Global) -> Result<Error, AllocError>
    ensures { IfOk result (λ error. kind_of error ≡ MissingSubcommand) }
{
    jp_command(alloc)?.error(ErrorKind::MissingSubcommand, "no subcommand has a query")
}
