//! Reading the words of a command line.

ghost use Rattle.std.specs.Prelude.{◌≡◌, ◌⊎◌, ◌≤◌, Some, IfOk, IfErr, [], map, length};
ghost use Rattle.std.specs.Prelude.{codes, option_and_then, option_map, string_bytes, take};
ghost use Rattle.clap.specs.Words.{IsAmong, fault_of, first_of, found_of, kind_of, rows_of};
ghost use Rattle.clap.specs.Words.{subcommand_of, subcommand_rows_of};
ghost use Rattle.clap.specs.declared.error.kind.ErrorKind.TheVariants.{OutOfMemory};
ghost use Rattle.jp_lines.specs.CommandLine.{asked, asked_by, begins_query, columns_by, extent_asked};
ghost use Rattle.jp_lines.specs.CommandLine.{inputs_by, jp_lines, names_behind, number_asked};
ghost use Rattle.jp_lines.specs.CommandLine.{options_asked, output_limit_asked, profile_of_lines};
ghost use Rattle.jp_lines.specs.CommandLine.{query_count, request_by, selection_by, style_asked, wanted_called};
ghost use Rattle.jp_lines.specs.CommandLine.{words_of};
ghost use Rattle.jp_command.specs.CommandLine.{is_set};
ghost use Rattle.jp_lines.specs.Request.{ColumnsBy, KeepBy};
ghost use Rattle.jp_lines.specs.Views.{job_of, request_of};
ghost use Rattle.jp_lines.specs.Words.{IsNoCommand};

use crate::commands::{jp_lines_command, no_query};
use crate::options::{Extent, Options, Wanted};
use crate::task::{Job, Request};
use clap::{ArgMatches, Error};
use jp_cells::{Format, Style};
use jp_check::Profile;
use jp_command::{Form, is_set};
use jp_limit::OutputLimit;
use std::alloc::{AllocError, Global};

/// What a subcommand's name asks to be written of each document, where texts are to be raw or not.
fn wanted_named(name: &str, raw: bool) -> Option<Wanted>
    ensures { result ≡ wanted_called name.now raw }
{
    match name {
        "eval" if raw => Some(Wanted::Nodes(Form::RAW_VALUES)),
        "eval" => Some(Wanted::Nodes(Form::VALUES)),
        "paths" => Some(Wanted::Nodes(Form::PATHS)),
        "both" if raw => Some(Wanted::Nodes(Form::RAW_BOTH)),
        "both" => Some(Wanted::Nodes(Form::BOTH)),
        "count" => Some(Wanted::Count),
        _ => None,
    }
}

/// The matches of `words` by the command line.
fn matches_of<'w>(alloc: Global, words: &'w [String]) -> Result<ArgMatches<'w>, Error>
    ensures taken { IfOk result (λ _. fault_of jp_lines (map string_bytes words.entry.now) ≡ []) }
    ensures entered { IfOk result (λ matches. subcommand_rows_of matches
        ≡ subcommand_of jp_lines (map string_bytes words.entry.now)) }
    ensures refused { IfErr result (λ error. (kind_of error ≡ OutOfMemory)
        ⊎ IsAmong (kind_of error) (fault_of jp_lines (map string_bytes words.entry.now))) }
{
    let command = jp_lines_command(alloc)?;
    command.try_get_matches_from(words)
}

/// The number that the option `name` has in the matches of a subcommand, where it is given.
fn number_asked(found: &ArgMatches, name: &str) -> Option<u64>
    ensures { result ≡ number_asked name.now (rows_of (found_of found.now)) }
{
    found.get_one::<u64>(name)
}

/// The most that may come out of one document, where the matches of a subcommand say it.
fn output_limit_asked(found: &ArgMatches) -> OutputLimit
    ensures { result ≡ output_limit_asked (rows_of (found_of found.now)) }
{
    OutputLimit {
        nodes: number_asked(found, "max-nodes"),
        bytes: number_asked(found, "max-bytes"),
    }
}

/// The profile that the matches of a subcommand ask for.
fn profile_of_lines(found: &ArgMatches) -> Profile
    ensures { result ≡ profile_of_lines (rows_of (found_of found.now)) }
{
    match (is_set(found, "whole"), is_set(found, "extended")) {
        (false, false) => Profile::Decimal,
        (false, true) => Profile::ExtendedDecimal,
        (true, false) => Profile::Standard,
        (true, true) => Profile::Extended,
    }
}

/// The options that the matches of a subcommand ask for.
fn options_asked(found: &ArgMatches) -> Options
    ensures { result ≡ options_asked (rows_of (found_of found.now)) }
{
    Options {
        profile: profile_of_lines(found),
        numbered: is_set(found, "number"),
        keep_going: is_set(found, "keep-going"),
        line_buffered: is_set(found, "line-buffered"),
        explaining: is_set(found, "explain"),
        exit_status: is_set(found, "exit-status"),
        summary: is_set(found, "summary"),
        reports: number_asked(found, "reports"),
        limit: number_asked(found, "limit"),
        output_limit: output_limit_asked(found),
    }
}

/// Of which nodes it is written, where the matches of a subcommand say it.
fn extent_asked(found: &ArgMatches) -> Extent
    ensures { result ≡ extent_asked (rows_of (found_of found.now)) }
{
    if is_set(found, "first") {
        Extent::First
    } else {
        Extent::All
    }
}

/// What the subcommand `keep` with the matches `found` asks for.
fn keep_by<'w>(found: &ArgMatches<'w>) -> Option<Request<'w>>
    ensures { option_map request_of result
        ≡ option_map KeepBy (first_of (codes "EXPRESSION") (rows_of (found_of found.now))) }
{
    let expression = found.get_str("EXPRESSION")?;
    Some(Request::KeepBy(expression))
}

/// What the subcommand `name`, which has one query, asks for of each document.
fn selection_by<'w>(name: &str, found: &ArgMatches<'w>) -> Option<Request<'w>>
    ensures { option_map request_of result ≡ selection_by name.now (rows_of (found_of found.now)) }
{
    let wanted = wanted_named(name, is_set(found, "raw"))?;
    let query = found.get_str("QUERY")?;
    Some(Request::SelectBy(wanted, extent_asked(found), query))
}

/// How the rows are written that the matches of `columns` ask for.
fn style_asked(found: &ArgMatches) -> Style
    ensures { result ≡ style_asked (rows_of (found_of found.now)) }
{
    Style {
        format: if is_set(found, "csv") {
            Format::Csv
        } else {
            Format::Tabs
        },
        raw: is_set(found, "raw"),
    }
}

/// Whether a word of `columns` behind the first is a query: it begins with `$` (RFC 9535 section 2.2.1).
fn begins_query(word: &str) -> bool
    ensures { result ≡ begins_query word.now }
{
    word.starts_with('$')
}

/// How many of the words of `columns` are queries; the others are names of inputs.
fn query_count(words: &[&str]) -> usize
    ensures count { result ≡ query_count (map (λ w. w.now) words.now) }
    ensures within { result ≤ length words.now }
{
    for place in 1..words.len() {
        if !begins_query(words[place]) {
            return place;
        }
    }
    words.len()
}

/// These words in memory of their own.
fn copied<'w>(alloc: Global, words: &[&'w str]) -> Result<Vec<&'w str>, AllocError>
    ensures { IfOk result (λ copy. copy.items ≡ words.now) }
{
    let mut copy = Vec::new(alloc);
    copy.extend_from_slice(words)?;
    Ok(copy)
}

/// What the subcommand `columns` asks for of each document.
fn columns_by<'w>(alloc: Global, found: &ArgMatches<'w>) -> Result<Option<Request<'w>>, AllocError>
    ensures { IfOk result (λ request.
        option_map request_of request ≡ columns_by (rows_of (found_of found.now))) }
{
    match found.get_strs("QUERY") {
        Some(words) => Ok(Some(columns_of(alloc, found, words)?)),
        None => Ok(None),
    }
}

/// What the queries among these words ask for.
fn columns_of<'w>(
    alloc: Global,
    found: &ArgMatches<'w>,
    words: &[&'w str],
) -> Result<Request<'w>, AllocError>
    ensures { IfOk result (λ request. request_of request
        ≡ ColumnsBy (style_asked (rows_of (found_of found.now)))
        (is_set (codes "names") (rows_of (found_of found.now)))
        (take (query_count (map (λ w. w.now) words.now)) (map (λ w. w.now) words.now))) }
{
    let queries = copied(alloc, &words[..query_count(words)])?;
    let named = is_set(found, "names");
    Ok(Request::ColumnsBy(style_asked(found), named, queries))
}

/// The names of the inputs that stand behind the queries of `columns` with the matches `found`.
fn names_behind<'w>(alloc: Global, found: &ArgMatches<'w>) -> Result<Vec<&'w str>, AllocError>
    ensures { IfOk result (λ inputs.
        map (λ w. w.now) inputs.items ≡ names_behind (rows_of (found_of found.now))) }
{
    match found.get_strs("QUERY") {
        Some(words) => {
            let names = copied(alloc, &words[query_count(words)..])?;
            Ok(names)
        }
        None => Ok(Vec::new(alloc)),
    }
}

/// The names of the inputs of another subcommand with the matches `found`.
fn files<'w>(alloc: Global, found: &ArgMatches<'w>) -> Result<Vec<&'w str>, AllocError>
    ensures { IfOk result (λ inputs.
        map (λ w. w.now) inputs.items ≡ words_of (codes "FILE") (rows_of (found_of found.now))) }
{
    match found.get_strs("FILE") {
        Some(names) => copied(alloc, names),
        None => Ok(Vec::new(alloc)),
    }
}

/// The names of the inputs that the subcommand `name` with the matches `found` asks for.
fn inputs_by<'w>(
    alloc: Global,
    name: &str,
    found: &ArgMatches<'w>,
) -> Result<Vec<&'w str>, AllocError>
    ensures { IfOk result (λ inputs.
        map (λ w. w.now) inputs.items ≡ inputs_by name.now (rows_of (found_of found.now))) }
{
    match name {
        "columns" => names_behind(alloc, found),
        _ => files(alloc, found),
    }
}

/// What the subcommand `name` with the matches `found` asks for of each document.
fn request_by<'w>(
    alloc: Global,
    name: &str,
    found: &ArgMatches<'w>,
) -> Result<Option<Request<'w>>, AllocError>
    ensures { IfOk result (λ request.
        option_map request_of request ≡ request_by name.now (rows_of (found_of found.now))) }
{
    match name {
        "keep" => Ok(keep_by(found)),
        "columns" => columns_by(alloc, found),
        _ => Ok(selection_by(name, found)),
    }
}

/// What the subcommand `name` with the matches `found` asks for.
fn asked_by<'w>(
    alloc: Global,
    name: &str,
    found: &ArgMatches<'w>,
) -> Result<Option<Job<'w>>, AllocError>
    ensures { IfOk result (λ job.
        option_map job_of job ≡ asked_by (name.now, rows_of (found_of found.now))) }
{
    let Some(request) = request_by(alloc, name, found)? else {
        return Ok(None);
    };
    let inputs = inputs_by(alloc, name, found)?;
    Ok(Some(Job {
        options: options_asked(found),
        request,
        inputs,
    }))
}

/// What the subcommand in `matches` asks for.
fn asked_in<'w>(alloc: Global, matches: &ArgMatches<'w>) -> Result<Option<Job<'w>>, AllocError>
    ensures { IfOk result (λ job.
        option_map job_of job ≡ option_and_then asked_by (subcommand_rows_of matches.now)) }
{
    match matches.subcommand() {
        Some((name, found)) => asked_by(alloc, name, found),
        None => Ok(None),
    }
}

/// What `words`, of which the first is the program's name, ask for. The error is clap's: the words are no command,
/// ask for help or for the version, or memory ran out (`OutOfMemory`).
pub fn read_words<'w>(alloc: Global, words: &'w [String]) -> Result<Job<'w>, Error>
    ensures asked { IfOk result (λ job.
        asked (map string_bytes words.entry.now) ≡ Some (job_of job)) }
    ensures refused { IfErr result (λ error. (kind_of error ≡ OutOfMemory)
        ⊎ IsNoCommand (kind_of error) (map string_bytes words.entry.now)) }
{
    let matches = matches_of(alloc, words)?;
    match asked_in(alloc, &matches)? {
        Some(job) => Ok(job),
        None => Err(no_query(alloc)?),
    }
}
