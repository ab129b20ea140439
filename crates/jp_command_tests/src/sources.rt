//! A source that says no more than it must, and a source and a writer that tell each of their calls.

ghost use Rattle.std.specs.Prelude.{◌≡◌, ◌+◌, ◌++◌, MatchOption, None, Some, false, length, true};

use super::texts::nested;
use jp_check::Profile::Standard;
use jp_command::{Device, Failed, Fault, Form, Source, Writer, read_all, run_eval};
use jp_document::DocumentFault;
use std::alloc::Global;
use std::io::Read;
use std::test::Fail;

/// An input of no bytes.
#[derive(Drop)]
struct Nothing;

impl Source for Nothing {
    ghost remaining = { λ _. None };

    ghost has_failed = { λ _. false };

    fn size_told(&self) -> usize {
        0
    }

    fn read(&mut self, _buffer: &mut [u8]) -> Result<usize, Failed> {
        Ok(0)
    }

    fn failed(&self) -> bool {
        false
    }
}

/// An input that counts the reads.
#[derive(Drop)]
struct CountedSource<'b> {
    bytes: &'b [u8],
    calls: u64,
    failed: bool,
}

impl Source for CountedSource<'_> {
    ghost remaining = { λ source. Some source.bytes.now };

    ghost has_failed = { λ source. source.failed };

    ghost read_gives = { λ before given after. MatchOption given (after.failed ≡ true)
        (λ bytes. (after.calls ≡ before.calls + 1)
        × (before.bytes.now ≡ bytes ++ after.bytes.now)) };

    ghost size_told = { λ source. length source.bytes.now };

    fn size_told(&self) -> usize {
        self.bytes.len()
    }

    fn read(&mut self, buffer: &mut [u8]) -> Result<usize, Failed> {
        let Some(calls) = self.calls.checked_add(1) else {
            self.failed = true;
            return Err(Failed);
        };
        let Ok(count) = self.bytes.read(buffer) else {
            self.failed = true;
            return Err(Failed);
        };
        self.calls = calls;
        Ok(count)
    }

    fn failed(&self) -> bool {
        self.failed
    }
}

/// An output that counts the writes.
#[derive(Drop)]
struct CountedWriter {
    bytes: Vec<u8>,
    calls: u64,
    failed: bool,
}

impl CountedWriter {
    fn new(alloc: Global) -> CountedWriter {
        CountedWriter {
            bytes: Vec::new(alloc),
            calls: 0,
            failed: false,
        }
    }
}

impl Writer for CountedWriter {
    ghost contents = { λ writer. Some writer.bytes.items };

    ghost has_failed = { λ writer. writer.failed };

    ghost write_takes = { λ before taken after. MatchOption taken (after.failed ≡ true)
        (λ bytes. (after.calls ≡ before.calls + 1)
        × (after.bytes.items ≡ before.bytes.items ++ bytes)) };

    fn write(&mut self, bytes: &[u8]) -> Result<usize, Failed> {
        let Some(calls) = self.calls.checked_add(1) else {
            self.failed = true;
            return Err(Failed);
        };
        if self.bytes.extend_from_slice(bytes).is_err() {
            self.failed = true;
            return Err(Failed);
        }
        self.calls = calls;
        Ok(bytes.len())
    }

    fn failed(&self) -> bool {
        self.failed
    }

    fn hung_up(&self) -> bool {
        false
    }
}

#[test]
fn sources_and_writers_tell_what_they_like_of_their_calls(rt: HostRuntime) {
    let mut written = Vec::new(rt.alloc());
    let run = run_eval(
        rt.alloc(),
        "$",
        Standard,
        Form::VALUES,
        &mut Nothing,
        &mut Device::new(&mut written),
    );
    assert_eq!(rt; run, Err(Fault::Document(DocumentFault::NotJson)));
    assert!(rt; written.is_empty());

    let mut input = CountedSource {
        bytes: b"[1,2]",
        calls: 0,
        failed: false,
    };
    let mut output = CountedWriter::new(rt.alloc());
    let run = run_eval(
        rt.alloc(),
        "$.*",
        Standard,
        Form::VALUES,
        &mut input,
        &mut output,
    );
    assert_eq!(rt; (run, input.calls, output.calls), (Ok(()), 2, 2));
    assert_eq!(rt; output.bytes.as_slice(), b"1\n2\n".as_slice());
}

#[test]
fn room_for_an_input_that_tells_its_size_is_taken_once(rt: HostRuntime) -> Result<(), Fail> {
    let document = nested(rt.alloc(), ("", "[", 100_000, "1"), ("]", ""))?;
    let all = document.as_bytes();
    // Room for one read more finds the end. More than a document may have is never read.
    let rows = [
        (200_001, 200_001 + 65_536),
        (usize::MAX, 16_777_216 + 65_536),
    ];
    for (told, room) in rows {
        let mut input = Device::new(all).with_size(told);
        assert_eq!(rt; input.size_told(), told);
        let bytes = read_all(rt.alloc(), &mut input);
        assert!(rt; bytes.is_ok_and(|bytes| bytes.as_slice() == all && bytes.capacity() == room));
    }
    for told in [0, 1, 199_999] {
        let mut input = Device::new(all).with_size(told);
        let bytes = read_all(rt.alloc(), &mut input);
        assert!(rt; bytes.is_ok_and(|bytes| bytes.as_slice() == all));
    }
    Ok(())
}
