//! What status 0 says of the output, and that no call follows one that failed: by an output that counts.

ghost use Rattle.std.specs.Prelude.{◌≡◌, ◌++◌, ◌+◌, MatchOption, None, OnOk, nat_lt, true};
ghost use Rattle.std.specs.Io.Iter.{u64_saturate};

use super::devices::{Alone, Narrow};
use super::programs::words;
use jp_command::{Device, Failed, Output, Writer, run_line};
use jp_lines::run_program;
use std::alloc::{AllocError, Global};

/// An output that counts its calls, those that fail apart, and hands on what it took where it is flushed.
/// So many calls don't fail, and all after them do.
#[derive(Drop)]
struct Counted {
    taken: Vec<u8>,
    holds_back: bool,
    calls: u64,
    failures: u64,
    working: u64,
}

impl Counted {
    fn new(alloc: Global, working: u64) -> Counted {
        Counted {
            taken: Vec::new(alloc),
            holds_back: false,
            calls: 0,
            failures: 0,
            working,
        }
    }

    /// Counts a call, unless it is to fail.
    fn begin(&mut self) -> Result<(), Failed>
        ensures counts { OnOk result (self.new.calls ≡ self.old.calls + 1) }
        ensures same { self.new.failures ≡ self.old.failures }
        ensures bytes { self.new.taken.items ≡ self.old.taken.items }
    {
        if self.calls >= self.working {
            return Err(Failed);
        }
        self.calls = self.calls.checked_add(1).ok_or(Failed)?;
        Ok(())
    }

    /// Counts a call that fails.
    fn fail<T>(&mut self) -> Result<T, Failed>
        ensures answer { OnOk result ⊥ }
        ensures counts { self.new.failures ≡ u64_saturate (self.old.failures + 1) }
        ensures some { nat_lt 0 self.new.failures ≡ true }
        ensures bytes { self.new.taken.items ≡ self.old.taken.items }
    {
        self.failures = self.failures.saturating_add(1);
        Err(Failed)
    }
}

impl Writer for Counted {
    ghost contents = { λ _. None };

    ghost has_failed = { λ output. nat_lt 0 output.failures };

    ghost write_takes = { λ before taken after. MatchOption taken
        (after.failures ≡ u64_saturate (before.failures + 1))
        (λ bytes. (after.calls ≡ before.calls + 1)
        × (after.taken.items ≡ before.taken.items ++ bytes)) };

    fn write(&mut self, bytes: &[u8]) -> Result<usize, Failed> {
        if self.begin().is_err() || self.taken.extend_from_slice(bytes).is_err() {
            return self.fail();
        }
        self.holds_back = true;
        Ok(bytes.len())
    }

    fn failed(&self) -> bool {
        self.failures > 0
    }

    fn hung_up(&self) -> bool {
        false
    }
}

impl Output for Counted {
    ghost holds_back = { λ output. output.holds_back };

    fn flush(&mut self) -> Result<(), Failed> {
        if self.begin().is_err() {
            return self.fail();
        }
        self.holds_back = false;
        Ok(())
    }
}

/// A program's words, and how many calls of its output a run makes that is done.
const RUNS: &[(&[&str], u64)] = &[
    (&["jp", "eval", "$.*"], 3),
    (&["jp", "paths", "$.x"], 1),
    (&["jp", "canon", "$"], 2),
    (&["jp-lines", "eval", "$.*"], 3),
    (&["jp-lines", "keep", "@[2]"], 1),
    (&["jp-lines", "--version"], 2),
];

/// The status of the program of that name, and what it tells, of an input that is a document and a line.
fn run(
    alloc: Global,
    line: &[&str],
    output: &mut Counted,
    faults: &mut Narrow,
) -> Result<u8, AllocError> {
    let words = words(alloc, line)?;
    let (document, faults) = (b"[1,2]".as_slice(), &mut Device::new(faults));
    if line.first() == Some(&"jp") {
        let input = &mut Device::new(document);
        return Ok(run_line(alloc, words, input, output, faults));
    }
    let inputs = &mut Alone::new(document);
    Ok(run_program(alloc, words, inputs, output, faults))
}

#[test]
fn what_is_done_is_handed_on(rt: HostRuntime) -> Result<(), AllocError> {
    for &(line, calls) in RUNS {
        let mut output = Counted::new(rt.alloc(), u64::MAX);
        let mut faults = Narrow::new(rt.alloc(), usize::MAX);
        let status = run(rt.alloc(), line, &mut output, &mut faults)?;
        assert_eq!(rt; (status, output.holds_back), (0, false));
        assert_eq!(rt; (output.calls, output.failures), (calls, 0));
        assert!(rt; faults.taken.is_empty());
    }
    Ok(())
}

#[test]
fn no_call_follows_one_that_failed(rt: HostRuntime) -> Result<(), AllocError> {
    for &(line, calls) in RUNS {
        for working in 0..calls {
            let mut output = Counted::new(rt.alloc(), working);
            let mut faults = Narrow::new(rt.alloc(), usize::MAX);
            let status = run(rt.alloc(), line, &mut output, &mut faults)?;
            assert_eq!(rt; (status, output.calls, output.failures), (5, working, 1));
            assert!(rt; faults.taken.as_slice() == "write fault\n".as_bytes());
        }
    }
    Ok(())
}
