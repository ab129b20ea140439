//! Runs over devices that fail at one call.

use super::devices::{Blanks, Drip, Narrow, Refusing, Trickle};
use super::table::names::{IN_QUOTES, NAMES};
use super::texts::nested;
use jp_check::Profile::Standard;
use jp_command::{
    Device, Failed, Fault, Form, Output, Source, Writer, run_canon, run_check, run_eval,
};
use jp_query::{Refusal, RefusalKind};
use std::alloc::Global;
use std::io::ErrorKind;
use std::process::Abort;
use std::test::Fail;

/// What `IN_QUOTES` gives over `NAMES`.
const LINE: &str = "$['\\'']['@']\t2\n";

#[test]
fn tells_each_write_that_fails(rt: HostRuntime) {
    for taken in 0..LINE.len() {
        assert_writes(&rt, rt.alloc(), taken, false);
        assert_writes(&rt, rt.alloc(), taken, true);
    }
    assert_writes(&rt, rt.alloc(), LINE.len(), false);
}

/// Asserts that a run whose output has taken so many bytes, and whose next write fails or takes
/// none, tells so, leaves these bytes and writes no more; and that it tells no failure where none
/// came, for its output was written.
fn assert_writes(rt: &impl Abort, alloc: Global, taken: usize, takes_none: bool) {
    let mut drip = Drip::new(alloc, 1);
    drip.failing = taken.saturating_add(1);
    drip.takes_none = takes_none;
    let mut output = Device::new(&mut drip);
    let mut trickle = Trickle::new(NAMES.as_bytes(), 1);
    let mut input = Device::new(&mut trickle);
    let run = run_eval(
        alloc,
        IN_QUOTES,
        Standard,
        Form::BOTH,
        &mut input,
        &mut output,
    );
    let failed = (input.failed(), output.failed());
    let whole = taken == LINE.len();
    let ended = if whole { Ok(()) } else { Err(Fault::Write) };
    assert_eq!(rt; (run, failed), (ended, (false, !whole)));
    assert!(rt; LINE.as_bytes().get(..taken) == Some(drip.taken.as_slice()));
    let writes = taken.saturating_add(usize::from(!whole));
    let reads = NAMES.len().saturating_add(1);
    assert_eq!(rt; (drip.calls, trickle.calls), (writes, reads));
}

#[test]
fn tells_readers_that_hang_up_from_other_failures(rt: HostRuntime) {
    let kinds = [
        (ErrorKind::BrokenPipe, true),
        (ErrorKind::ConnectionReset, false),
        (ErrorKind::StorageFull, false),
    ];
    for (kind, hangs_up) in kinds {
        let mut writing = Device::new(Refusing(kind));
        let mut flushing = Device::new(Refusing(kind));
        assert!(rt; !writing.hung_up());
        let answers = (writing.write(b"1"), flushing.flush());
        assert_eq!(rt; answers, (Err(Failed), Err(Failed)));
        assert_eq!(rt; (writing.failed(), flushing.failed()), (true, true));
        assert_eq!(rt;
            (writing.hung_up(), flushing.hung_up()),
            (hangs_up, hangs_up)
        );
    }
    let mut drip = Drip::new(rt.alloc(), 1);
    drip.failing = 1;
    drip.takes_none = true;
    let mut output = Device::new(&mut drip);
    assert_eq!(rt; output.write(b"1"), Err(Failed));
    assert_eq!(rt; (output.failed(), output.hung_up()), (true, false));
}

#[test]
fn tells_each_read_that_fails(rt: HostRuntime) {
    let alloc = rt.alloc();
    for given in 0..=NAMES.len() {
        let mut trickle = Trickle::new(NAMES.as_bytes(), 1);
        trickle.failing = given.saturating_add(1);
        let mut written = Vec::new(alloc);
        let mut input = Device::new(&mut trickle);
        let mut output = Device::new(&mut written);
        let run = run_eval(
            alloc,
            IN_QUOTES,
            Standard,
            Form::BOTH,
            &mut input,
            &mut output,
        );
        let failed = (input.failed(), output.failed());
        assert_eq!(rt;
            (run, failed, written.len(), trickle.calls),
            (Err(Fault::Read), (true, false), 0, given.saturating_add(1))
        );
    }
}

#[test]
fn stops_reading_an_input_that_never_ends(rt: HostRuntime) {
    let alloc = rt.alloc();
    for (size, calls) in [(usize::MAX, 257), (1, 16_777_217)] {
        let mut blanks = Trickle::new(Blanks(usize::MAX - 1), size);
        let mut written = Vec::new(alloc);
        let mut input = Device::new(&mut blanks);
        let mut output = Device::new(&mut written);
        let run = run_eval(alloc, "$", Standard, Form::BOTH, &mut input, &mut output);
        let failed = (input.failed(), output.failed());
        assert_eq!(rt;
            (run, failed, written.len(), blanks.calls),
            (Err(Fault::DocumentTooLarge), (false, false), 0, calls)
        );
    }
}

#[test]
fn writes_a_line_before_it_looks_for_the_next_node(rt: HostRuntime) -> Result<(), Fail> {
    let alloc = rt.alloc();
    let document = nested(alloc, ("", "[", 60, "1"), ("]", ""))?;
    let each_item_twice = nested(alloc, ("$", "[0,0]", 60, ""), ("", ""))?;
    let mut narrow = Narrow::new(alloc, 0, true);
    let run = run_eval(
        alloc,
        each_item_twice.as_str(),
        Standard,
        Form::VALUES,
        &mut Device::new(document.as_bytes()),
        &mut Device::new(&mut narrow),
    );
    assert_eq!(rt; (run, narrow.taken.len()), (Err(Fault::Write), 0));
    Ok(())
}

#[test]
fn keeps_what_was_written_before_a_failing_write(rt: HostRuntime) {
    let alloc = rt.alloc();
    let rows = [
        (r#"["ab","cd"]"#, "$.*", Form::VALUES, "\"ab\"\n\""),
        ("[[7,8]]", "$[0][1]", Form::BOTH, "$[0][1]\t8"),
        (r#"[{"x":1},{"x":2}]"#, "$[?@.x]", Form::BOTH, ""),
    ];
    for (document, query, form, prefix) in rows {
        let mut narrow = Narrow::new(alloc, prefix.len(), true);
        let run = run_eval(
            alloc,
            query,
            Standard,
            form,
            &mut Device::new(document.as_bytes()),
            &mut Device::new(&mut narrow),
        );
        assert_eq!(rt;
            (run, narrow.taken.as_slice()),
            (Err(Fault::Write), prefix.as_bytes())
        );
    }
}

#[test]
fn tells_why_its_one_line_is_not_written(rt: HostRuntime) {
    let mut bytes = Vec::new(rt.alloc());
    let run = run_canon(rt.alloc(), "$.a[", Standard, &mut Device::new(&mut bytes));
    let refusal = Refusal {
        kind: RefusalKind::Syntax,
        place: 4,
    };
    assert_eq!(rt; (run, bytes.len()), (Err(Fault::Query(refusal)), 0));

    let mut canonical = Narrow::new(rt.alloc(), 6, true);
    let mut accepted = Narrow::new(rt.alloc(), 6, true);
    let ended = (
        run_canon(
            rt.alloc(),
            "$.ab.c",
            Standard,
            &mut Device::new(&mut canonical),
        ),
        run_check(
            rt.alloc(),
            "$.ab.c",
            Standard,
            &mut Device::new(&mut accepted),
        ),
    );
    assert_eq!(rt; ended, (Err(Fault::Write), Err(Fault::Write)));
    assert_eq!(rt;
        (canonical.taken.as_slice(), accepted.taken.as_slice()),
        (b"$['ab'".as_slice(), b"accept".as_slice())
    );
}
