//! Calls that the program `jp` does not make, for `hostile/run`, which refuses them memory, and for
//! `hostile/readers`.
//!
//! Its word is the task for each line of the standard input. `paths` reads the line as a normalized
//! path and writes its steps or why it is none; `steps` and `no-steps` read it as a pattern and
//! write whether a scan accepts 100,000 times `ab`, or the empty text; `descend` reads it as a
//! document and writes how many nodes it has; `documents` reads it by `serde_json` and writes its
//! compact text or why it is none; `misread` reads it as bytes, two hexadecimal digits each, and
//! writes why they are no document, and where. The status is 0, 4 where memory ran out, and 5 where a read or a
//! write failed otherwise.
#![tactic(auto)]

use jp_decimal::Numbers;
use jp_document::{DocumentFault, OwnedStep, PathFault, parsed_value, read_path};
use jp_held::Document;
use jp_iregexp::{PatternFault, read_pattern};
use jp_json::find_misreading;
use jp_lent::value_text;
use jp_match::{Scan, Tests};
use jp_select::descend_each;
use std::alloc::Global;
use std::io::{Error, ErrorKind};
use std::process::ExitCode;
use std::{env, io};

/// Does the task; the exit code is 0, 4 where memory ran out, and 5 where a read or a write failed
/// otherwise.
fn main(rt: HostRuntime) -> ExitCode {
    match run(&rt) {
        Ok(()) => ExitCode::from(0),
        Err(error) if error.kind() == ErrorKind::OutOfMemory => {
            let _ = eprintln!(rt; "want of memory");
            ExitCode::from(4)
        }
        Err(_) => ExitCode::from(5),
    }
}

/// Does the task that the last word names with each line of the standard input, `paths` where it names
/// none.
fn run(rt: &HostRuntime) -> io::Result<()> {
    let alloc = rt.alloc();
    let words: Vec<String> = env::args(rt)?.collect(alloc)?;
    let task = match words.last() {
        Some(word) => word.as_str(),
        None => "",
    };
    for line in rt.lines(alloc) {
        let line = line?;
        let told = match task {
            "steps" => scanned(alloc, line.as_str(), 100_000)?,
            "no-steps" => scanned(alloc, line.as_str(), 0)?,
            "descend" => nodes_of(alloc, line.as_str())?,
            "documents" => value_of(alloc, line.as_str())?,
            "misread" => misread(alloc, line.as_str())?,
            _ => steps_of(alloc, line.as_str())?,
        };
        println!(rt; "{told}")?;
    }
    Ok(())
}

/// The steps of the path that a text is, or why it is none.
fn steps_of(alloc: Global, path: &str) -> io::Result<String> {
    let location = match read_path(alloc, path) {
        Ok(location) => location,
        Err(PathFault::NotNormalized) => return Ok(String::from_str(alloc, "NotNormalized")?),
        Err(PathFault::IndexRange) => return Ok(String::from_str(alloc, "IndexRange")?),
        Err(PathFault::NoMemory) => return Err(Error::from(ErrorKind::OutOfMemory)),
    };
    let mut text = String::from_str(alloc, "steps")?;
    for step in location.steps() {
        match step {
            OwnedStep::Name(name) => write!(text, " {name}")?,
            OwnedStep::Index(index) => write!(text, " {index}")?,
        }
    }
    Ok(text)
}

/// How many nodes the document that a text is has.
fn nodes_of(alloc: Global, text: &str) -> io::Result<String> {
    let document = match Document::read(alloc, text.as_bytes()) {
        Ok(document) => document,
        Err(DocumentFault::NoMemory) => return Err(Error::from(ErrorKind::OutOfMemory)),
        Err(_) => return Ok(String::from_str(alloc, "no document")?),
    };
    let mut count: u64 = 0;
    for node in descend_each(alloc, document.root(alloc)) {
        node?;
        count = count.saturating_add(1);
    }
    let mut told = String::new(alloc);
    write!(told, "{count} nodes")?;
    Ok(told)
}

/// The compact text of the document that a text is, read by `serde_json`, or why it is none.
fn value_of(alloc: Global, text: &str) -> io::Result<String> {
    match parsed_value(alloc, text.as_bytes()) {
        Ok(json) => Ok(value_text(alloc, &json)?),
        Err(DocumentFault::NoMemory) => Err(Error::from(ErrorKind::OutOfMemory)),
        Err(fault) => Ok(format!(in alloc; "{fault}")?),
    }
}

/// Why the bytes that hexadecimal digits write are no document: the reason, the byte, the line, the
/// column, and the path of a number.
fn misread(alloc: Global, digits: &str) -> io::Result<String> {
    let mut bytes = Vec::new(alloc);
    let mut high = None;
    for c in digits.chars() {
        let Some(digit) = c.to_digit(16) else {
            return Ok(String::from_str(alloc, "no bytes")?);
        };
        match high {
            None => high = Some(digit),
            Some(first) => {
                bytes.push(((first.wrapping_mul(16) | digit) & 0xff) as u8)?;
                high = None;
            }
        }
    }
    let Some(told) = find_misreading(alloc, &bytes, Numbers::Whole)? else {
        return Ok(String::from_str(alloc, "document")?);
    };
    let path = match &told.path {
        Some(path) => path.as_str(),
        None => "",
    };
    let reason = told.reason;
    let place = (told.offset, told.line, told.column);
    Ok(format!(in alloc; "{reason:?} {} {} {} {path}", place.0, place.1, place.2)?)
}

/// Whether a scan of the pattern that a text is accepts so many times `ab`.
fn scanned(alloc: Global, pattern: &str, count: u32) -> io::Result<String> {
    let pattern = match read_pattern(alloc, pattern) {
        Ok(pattern) => pattern,
        Err(PatternFault::NotConforming) => return Ok(String::from_str(alloc, "NotConforming")?),
        Err(PatternFault::NoMemory) => return Err(Error::from(ErrorKind::OutOfMemory)),
    };
    let Some(mut scan) = Scan::new(alloc, &pattern, false)? else {
        return Ok(String::from_str(alloc, "no scan")?);
    };
    let mut tests = Tests::new();
    for _ in 0..count {
        scan.step('a', &mut tests);
        scan.step('b', &mut tests);
    }
    let told = if scan.accepts() { "accepts" } else { "refuses" };
    Ok(String::from_str(alloc, told)?)
}
