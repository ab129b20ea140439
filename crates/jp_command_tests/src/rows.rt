//! Running the rows of the table.

use super::devices::{Drip, Trickle};
use super::{forms, prefixes};
use jp_check::Profile::{self, Decimal, Extended, ExtendedDecimal, Standard};
use jp_command::{Device, run_line};
use std::alloc::{AllocError, Global};
use std::io::{Read, Write};
use std::process::Abort;
use std::test::Fail;

/// The status of a run of these words over this input.
pub fn status_over<I: Read + Drop, O: Write + Drop, F: Write + Drop>(
    alloc: Global,
    words: Vec<String>,
    input: I,
    output: O,
    faults: F,
) -> u8 {
    let (input, output) = (&mut Device::new(input), &mut Device::new(output));
    run_line(alloc, words, input, output, &mut Device::new(faults))
}

/// A document, a query, and what they give.
pub type Row = (&'static str, &'static str, Answer);

/// A document, a query, and what they give in `Extended` and in `Standard`.
pub type ProfileRow = (&'static str, &'static str, Answer, Answer);

/// What `jp both` gives, or `jp canon` for a canonical text.
#[derive(Debug, Clone, Copy)]
pub enum Answer {
    /// Status 0 with a line for each node: its normalized path, a tab and its value.
    Nodes(&'static [(&'static str, &'static str)]),
    /// Status 0 with this canonical text, which is its own, and no document is read.
    Canonical(&'static str),
    /// Status 1 with this kind and place after `query refused: `, and no document is read.
    Query(&'static str),
    /// Status 3 with this name after `document refused: `.
    Document(&'static str),
}

/// Runs each row of these tables in both profiles.
pub fn gives_each(rt: &impl Abort, alloc: Global, tables: &[&[Row]]) -> Result<(), Fail> {
    for rows in tables {
        gives_rows(rt, alloc, rows)?;
    }
    Ok(())
}

fn gives_rows(rt: &impl Abort, alloc: Global, rows: &[Row]) -> Result<(), Fail> {
    for (document, query, answer) in rows {
        gives(rt, alloc, (document, query, Standard), *answer)?;
        gives(rt, alloc, (document, query, Extended), *answer)?;
    }
    Ok(())
}

/// Runs each row of these tables in both profiles, in which it gives different answers.
pub fn gives_in_each_profile(
    rt: &impl Abort,
    alloc: Global,
    tables: &[&[ProfileRow]],
) -> Result<(), Fail> {
    for rows in tables {
        gives_profile_rows(rt, alloc, rows)?;
    }
    Ok(())
}

fn gives_profile_rows(rt: &impl Abort, alloc: Global, rows: &[ProfileRow]) -> Result<(), Fail> {
    for (document, query, extended, standard) in rows {
        gives(rt, alloc, (document, query, Extended), *extended)?;
        gives(rt, alloc, (document, query, Standard), *standard)?;
    }
    Ok(())
}

/// A document, a query and the profile in which it is read.
pub type Asked<'a> = (&'a str, &'a str, Profile);

/// Runs a row, and asks the document's tree as well. No prefix of a query that is accepted is refused
/// but at its end, and where a row gives nodes, no proper prefix of its document is a document.
fn gives(
    rt: &impl Abort,
    alloc: Global,
    (document, query, profile): Asked<'_>,
    answer: Answer,
) -> Result<(), Fail> {
    gives_in_pieces(rt, alloc, (document, query, profile), answer)?;
    forms::assert_each_has_the_answer(rt, alloc, (document, query, profile), answer)?;
    match answer {
        Answer::Nodes(_) => {
            prefixes::are_accepted_or_end(rt, alloc, query, profile);
            prefixes::are_no_documents(rt, alloc, document);
        }
        Answer::Canonical(text) => {
            prefixes::are_accepted_or_end(rt, alloc, query, profile);
            prefixes::are_accepted_or_end(rt, alloc, text, profile);
            gives_in_pieces(rt, alloc, (document, text, profile), answer)?;
        }
        Answer::Query(_) | Answer::Document(_) => {}
    }
    Ok(())
}

/// Runs a row with a few bytes a read and a write, and with many.
fn gives_in_pieces(
    rt: &impl Abort,
    alloc: Global,
    asked: Asked<'_>,
    answer: Answer,
) -> Result<(), Fail> {
    for size in [1, 2, 3, 7, 999] {
        assert_gives(rt, alloc, asked, answer, size)?;
    }
    Ok(())
}

/// Asserts the status of a query over a document, and what is written to either output at most so
/// many bytes a call; that the output is flushed once after a run that is done, and else not; and
/// whether the document is read.
pub fn assert_gives(
    rt: &impl Abort,
    alloc: Global,
    (document, query, profile): Asked<'_>,
    answer: Answer,
    size: usize,
) -> Result<(), Fail> {
    let (status, lines, fault) = expected(alloc, &answer)?;
    let subcommand = match answer {
        Answer::Canonical(_) => "canon",
        Answer::Nodes(_) | Answer::Query(_) | Answer::Document(_) => "both",
    };
    let is_read = matches!(answer, Answer::Nodes(_) | Answer::Document(_));
    let mut input = Trickle::new(document.as_bytes(), size);
    let mut output = Drip::new(alloc, size);
    let mut faults = Vec::new(alloc);
    let ended = status_over(
        alloc,
        profile_words(alloc, subcommand, query, profile)?,
        &mut input,
        &mut output,
        &mut faults,
    );
    assert_eq!(rt;
        (
            ended,
            output.taken.as_slice(),
            faults.as_slice(),
            output.flush_count,
            input.calls > 0
        ),
        (
            status,
            lines.as_bytes(),
            fault.as_bytes(),
            u8::from(status == 0),
            is_read
        ),
        "{query}"
    );
    Ok(())
}

/// The status of an answer, what is written to the output, and the fault's line.
pub fn expected(alloc: Global, answer: &Answer) -> Result<(u8, String, String), AllocError> {
    let mut lines = String::new(alloc);
    let mut fault = String::new(alloc);
    let status = match answer {
        Answer::Nodes(nodes) => {
            for (path, value) in *nodes {
                write!(lines, "{path}\t{value}\n")?;
            }
            0
        }
        Answer::Canonical(text) => {
            write!(lines, "{text}\n")?;
            0
        }
        Answer::Query(refusal) => {
            write!(fault, "query refused: {refusal}\n")?;
            1
        }
        Answer::Document(name) => {
            write!(fault, "document refused: {name}\n")?;
            3
        }
    };
    Ok((status, lines, fault))
}

/// Asserts what a line of words gives over an input: the status, and what is written to either
/// output.
pub fn assert_ended<R: Read + Drop>(
    rt: &impl Abort,
    alloc: Global,
    line: &[&str],
    input: R,
    (status, output, fault): (u8, &str, &str),
) -> Result<(), Fail> {
    let ended = ended(alloc, line, input)?;
    assert_eq!(rt;
        (ended.0, ended.1.as_slice(), ended.2.as_slice()),
        (status, output.as_bytes(), fault.as_bytes())
    );
    Ok(())
}

/// What a line of words gives over an input: the status, and what is written to either output.
pub fn ended<R: Read + Drop>(
    alloc: Global,
    line: &[&str],
    input: R,
) -> Result<(u8, Vec<u8>, Vec<u8>), AllocError> {
    let mut output = Vec::new(alloc);
    let mut faults = Vec::new(alloc);
    let status = status_over(alloc, words(alloc, line)?, input, &mut output, &mut faults);
    Ok((status, output, faults))
}

/// The line of words that asks for a query's run in that profile.
fn profile_words(
    alloc: Global,
    subcommand: &str,
    query: &str,
    profile: Profile,
) -> Result<Vec<String>, AllocError> {
    match profile {
        Standard => words(alloc, &["jp", subcommand, query]),
        Extended => words(alloc, &["jp", subcommand, "--extended", query]),
        Decimal => words(alloc, &["jp", subcommand, "--decimals", query]),
        ExtendedDecimal => words(
            alloc,
            &["jp", subcommand, "--extended", "--decimals", query],
        ),
    }
}

/// A line of words, the program's name first.
pub fn words(alloc: Global, line: &[&str]) -> Result<Vec<String>, AllocError> {
    let mut words = Vec::new(alloc);
    for word in line {
        words.push(String::from_str(alloc, word)?)?;
    }
    Ok(words)
}
