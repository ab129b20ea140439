//! `jp-lines`: a JSONPath query (RFC 9535) over documents, one a line, of files or of the standard input.
//!
//! It hands its words, its files and its streams over to `run_program` of `jp_lines` and ends with the
//! status that `run_program` answers.
#![tactic(auto)]

use jp_command::{Device, buffered, exit_status, unbuffered};
use jp_lines::{Opener, run_program};
use std::process::ExitCode;
use std::{env, io};

/// Runs the program with the process's words, files and streams; its status is the exit code.
fn main(rt: HostRuntime) -> ExitCode {
    let mut faults = Device::new(rt.stderr());
    ExitCode::from(exit_status(rt.alloc(), run(&rt), &mut faults))
}

/// The status of the program, or why its words or its output could not be had.
fn run(rt: &HostRuntime) -> io::Result<u8> {
    let alloc = rt.alloc();
    let words = env::args(rt)?.collect(alloc)?;
    let mut inputs = Opener::new(rt, rt.stdin());
    let mut output = buffered(alloc, rt.stdout())?;
    let mut faults = Device::new(rt.stderr());
    let status = run_program(alloc, words, &mut inputs, &mut output, &mut faults);
    // A buffer that is dropped writes what a failed write has left in it.
    let _ = unbuffered(output);
    Ok(status)
}
