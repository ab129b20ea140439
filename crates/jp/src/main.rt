//! `jp`: JSONPath queries (RFC 9535) over a document on the standard input.
//!
//! It hands its words and streams over to `run_line` of `jp_command` and ends with the status that
//! `run_line` answers.
#![tactic(auto)]

use jp_command::{Device, buffered, exit_status, run_line, unbuffered};
use std::process::ExitCode;
use std::{env, fs, io};

/// Runs the program with the process's words and streams; its status is the exit code.
fn main(rt: HostRuntime) -> ExitCode {
    let mut faults = Device::new(rt.stderr());
    ExitCode::from(exit_status(rt.alloc(), run(&rt), &mut faults))
}

/// The status of the program, or why its words or its output could not be had.
fn run(rt: &HostRuntime) -> io::Result<u8> {
    let alloc = rt.alloc();
    let words = env::args(rt)?.collect(alloc)?;
    let mut input = Device::new(rt.stdin()).with_size(input_size(rt));
    let mut output = buffered(alloc, rt.stdout())?;
    let mut faults = Device::new(rt.stderr());
    let status = run_line(alloc, words, &mut input, &mut output, &mut faults);
    // A buffer that is dropped writes what a failed write has left in it.
    let _ = unbuffered(output);
    Ok(status)
}

/// How many bytes the standard input has where it is a file; 0 where it does not tell.
fn input_size(rt: &HostRuntime) -> usize {
    match fs::metadata(rt, "/dev/stdin") {
        Ok(file) => file.len() as usize,
        Err(_) => 0,
    }
}
