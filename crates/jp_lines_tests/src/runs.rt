//! What is written and told of lines of every kind.

use super::devices::{Endless, Narrow, Trickle};
use jp_check::Profile::Standard;
use jp_command::{Device, Form};
use jp_limit::OutputLimit;
use jp_lines::{Defect, Options, RefusedLine, Stop, Wanted, run_lines};
use std::alloc::{AllocError, Global};
use std::process::Abort;

/// What is written of each document, and how a run goes over the lines.
type Way = (Wanted, Options);

/// Values, and nothing else asked for.
const VALUES: Way = (Wanted::Nodes(Form::VALUES), PLAIN);

const PLAIN: Options = Options {
    profile: Standard,
    numbered: false,
    keep_going: false,
    line_buffered: false,
    explaining: false,
    exit_status: false,
    summary: false,
    reports: None,
    limit: None,
    output_limit: OutputLimit {
        nodes: None,
        bytes: None,
    },
};

/// Numbered values of a run that goes on.
const NUMBERED: Way = (
    Wanted::Nodes(Form::VALUES),
    Options {
        numbered: true,
        keep_going: true,
        line_buffered: true,
        ..PLAIN
    },
);

const COUNTED: Way = (
    Wanted::Count,
    Options {
        keep_going: true,
        ..PLAIN
    },
);

/// Lines, how they come and what takes the output and the refusals.
#[derive(Clone, Copy)]
struct Case<'a> {
    lines: &'a str,

    /// How many bytes a read gives at most.
    size: usize,

    /// Whether the read behind them fails.
    fails: bool,

    /// How many bytes the output takes before a write fails, and how many of refusals are taken.
    room: usize,
    told_room: usize,
}

/// A case in which nothing fails.
fn whole(lines: &str, size: usize) -> Case<'_> {
    Case {
        lines,
        size,
        fails: false,
        room: usize::MAX,
        told_room: usize::MAX,
    }
}

/// What a run says: its answer or why it stopped, what is written, what is told, and how often the
/// output was flushed.
type Said<'a> = (&'a str, &'a str, &'a str, usize);

/// Runs `$..a` over a case.
fn assert_says(
    rt: &impl Abort,
    alloc: Global,
    (wanted, options): Way,
    case: Case<'_>,
    (answer, written, told, flushes): Said<'_>,
) -> Result<(), AllocError> {
    let mut output = Narrow::new(alloc, case.room);
    let mut faults = Narrow::new(alloc, case.told_room);
    let run = run_lines(
        alloc,
        "$..a",
        wanted,
        options,
        &mut Device::new(Trickle {
            bytes: case.lines.as_bytes(),
            size: case.size,
            fails: case.fails,
        }),
        &mut Device::new(&mut output),
        &mut Device::new(&mut faults),
    );
    let said = match run {
        Ok(tally) => format!(in alloc; "{} {} {}", tally.documents, tally.refused, tally.selected)?,
        Err(stop) => format!(in alloc; "{stop}")?,
    };
    assert_eq!(rt; said.as_str(), answer);
    assert!(rt; output.taken.as_slice() == written.as_bytes());
    assert!(rt; faults.taken.as_slice() == told.as_bytes());
    assert_eq!(rt; output.flushes, flushes);
    Ok(())
}

/// Five lines, of which the third is blank, the fourth and the fifth are no documents, and the last
/// has no newline.
const FIVE: &str = "{\"a\":1}\n{\"a\":{\"a\":[2]}}\r\n \t\r\n{\"a\":}\n{\"b\":0,\"a\":3.0}";

const TOLD: &str =
    "line 4: document refused: NotJson\nline 5: document refused: NotWhole at $['a']\n";

#[test]
fn goes_on_or_stops_after_a_line_that_is_no_document(rt: HostRuntime) -> Result<(), AllocError> {
    let alloc = rt.alloc();
    for size in [1, 7, 100] {
        let values = "1\n{\"a\":[2]}\n[2]\n";
        let stop = "line 4: document refused: NotJson";
        assert_says(&rt, alloc, VALUES, whole(FIVE, size), (stop, values, "", 0))?;
        let values = "1\t1\n2\t{\"a\":[2]}\n2\t[2]\n";
        assert_says(
            &rt,
            alloc,
            NUMBERED,
            whole(FIVE, size),
            ("2 2 3", values, TOLD, 3),
        )?;
        assert_says(
            &rt,
            alloc,
            COUNTED,
            whole(FIVE, size),
            ("2 2 3", "1\n2\n", TOLD, 0),
        )?;
    }
    Ok(())
}

#[test]
fn writes_nothing_of_lines_without_documents(rt: HostRuntime) -> Result<(), AllocError> {
    for (lines, flushes) in [("", 1), ("\n", 2), (" ", 1), ("\n\n \r\n", 4)] {
        assert_says(
            &rt,
            rt.alloc(),
            NUMBERED,
            whole(lines, 3),
            ("0 0 0", "", "", flushes),
        )?;
    }
    Ok(())
}

#[test]
fn has_answered_the_lines_before_a_read_that_fails(rt: HostRuntime) -> Result<(), AllocError> {
    let lines = Case {
        fails: true,
        ..whole("{\"a\":1}\n{\"a\":2}\n{\"a\":", 3)
    };
    assert_says(
        &rt,
        rt.alloc(),
        VALUES,
        lines,
        ("read fault", "1\n2\n", "", 0),
    )
}

#[test]
fn stops_at_a_write_that_fails(rt: HostRuntime) -> Result<(), AllocError> {
    let lines = Case {
        room: 3,
        ..whole("{\"a\":1}\n{\"a\":2}\n{\"a\":3}\n", 100)
    };
    assert_says(
        &rt,
        rt.alloc(),
        VALUES,
        lines,
        ("write fault", "1\n2", "", 0),
    )
}

/// A document, a line that is none, and a document; the newlines end 8, 10 and 18 bytes.
const THREE: &str = "{\"a\":1}\nx\n{\"a\":2}\n";

const REFUSED: &str = "line 2: document refused: NotJson\n";

#[test]
fn tells_each_write_that_fails(rt: HostRuntime) -> Result<(), AllocError> {
    let rows = ["", "1", "1\n", "1\n1"];
    for (room, written) in rows.into_iter().enumerate() {
        let told = if room < 2 { "" } else { REFUSED };
        let lines = Case {
            room,
            ..whole(THREE, 100)
        };
        assert_says(
            &rt,
            rt.alloc(),
            COUNTED,
            lines,
            ("write fault", written, told, 0),
        )?;
    }
    Ok(())
}

#[test]
fn tells_each_read_that_fails(rt: HostRuntime) -> Result<(), AllocError> {
    let rows = [
        (0..8, "", ""),
        (8..10, "1\n", ""),
        (10..18, "1\n", REFUSED),
        (18..19, "1\n1\n", REFUSED),
    ];
    for (reads, written, told) in rows {
        for given in reads {
            let lines = Case {
                fails: true,
                ..whole(THREE.get(..given).unwrap_or(""), 1)
            };
            assert_says(
                &rt,
                rt.alloc(),
                COUNTED,
                lines,
                ("read fault", written, told, 0),
            )?;
        }
    }
    Ok(())
}

#[test]
fn says_nothing_of_a_line_that_is_cut(rt: HostRuntime) -> Result<(), AllocError> {
    let lines = Case {
        room: 0,
        ..whole("{\"a\":1}\n{\"a\":2}\n", 12)
    };
    assert_says(&rt, rt.alloc(), COUNTED, lines, ("write fault", "", "", 0))
}

#[test]
fn refuses_a_line_before_its_end_where_that_is_too_far(rt: HostRuntime) {
    let mut endless = Endless { reads: 0 };
    let run = run_lines(
        rt.alloc(),
        "$",
        VALUES.0,
        VALUES.1,
        &mut Device::new(&mut endless),
        &mut Device::new(Narrow::new(rt.alloc(), 0)),
        &mut Device::new(Narrow::new(rt.alloc(), 0)),
    );
    let refused = RefusedLine {
        number: 1,
        defect: Defect::TooLarge,
        explanation: String::new(rt.alloc()),
    };
    // The reads give 65,536 bytes each, and 256 of them as many as a document may have.
    assert_eq!(rt; (run, endless.reads), (Err(Stop::Line(refused)), 257));
}

#[test]
fn goes_on_where_a_refusal_cannot_be_told(rt: HostRuntime) -> Result<(), AllocError> {
    let lines = Case {
        told_room: 4,
        ..whole("x\n{\"a\":1}\nx\n", 100)
    };
    assert_says(&rt, rt.alloc(), COUNTED, lines, ("1 2 1", "1\n", "line", 0))
}

#[test]
fn tells_no_more_refusals_than_it_is_to(rt: HostRuntime) -> Result<(), AllocError> {
    let lines = "x\n{\"a\":1}\n\n[\n[1.5]\n{\"a\":2}";
    let first = "line 1: document refused: NotJson\n";
    let two = "line 1: document refused: NotJson\nline 4: document refused: NotJson\n";
    let all = "line 1: document refused: NotJson\nline 4: document refused: NotJson\n\
        line 5: document refused: NotWhole at $[0]\n";
    let rows = [
        (Some(0), ""),
        (Some(1), first),
        (Some(2), two),
        (Some(3), all),
        (Some(u64::MAX), all),
        (None, all),
    ];
    for (reports, told) in rows {
        let way = (
            Wanted::Count,
            Options {
                keep_going: true,
                reports,
                ..PLAIN
            },
        );
        for size in [1, 5, 100] {
            let ended = ("2 3 2", "1\n1\n", told, 0);
            assert_says(&rt, rt.alloc(), way, whole(lines, size), ended)?;
        }
    }
    Ok(())
}

#[test]
fn stops_at_a_refusal_however_many_it_is_to_tell(rt: HostRuntime) -> Result<(), AllocError> {
    let way = (
        Wanted::Count,
        Options {
            reports: Some(0),
            ..PLAIN
        },
    );
    let stop = ("line 2: document refused: NotJson", "1\n", "", 0);
    assert_says(&rt, rt.alloc(), way, whole(THREE, 100), stop)
}

#[test]
fn refuses_a_query_before_it_reads(rt: HostRuntime) -> Result<(), AllocError> {
    let mut taken = Narrow::new(rt.alloc(), usize::MAX);
    let mut input = Trickle {
        bytes: b"{}",
        size: 1,
        fails: true,
    };
    let run = run_lines(
        rt.alloc(),
        "$[?distinct(@.*)]",
        VALUES.0,
        VALUES.1,
        &mut Device::new(&mut input),
        &mut Device::new(&mut taken),
        &mut Device::new(Narrow::new(rt.alloc(), 0)),
    );
    let Err(stop) = run else {
        return Err(AllocError);
    };
    let said = format!(in rt.alloc(); "{stop}")?;
    assert_eq!(rt; said.as_str(), "query refused: UnknownFunction at 3");
    assert_eq!(rt; (input.bytes.len(), taken.taken.len()), (2, 0));
    Ok(())
}
