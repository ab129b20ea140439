//! Kinds of refusal and places that no reading of that text gives.

use jp_check::Profile::Standard;
use jp_explain::{Reason, Surroundings, explain};
use jp_query::{Refusal, RefusalKind};
use std::alloc::Global;
use std::process::Abort;
use std::test::Fail;

/// A kind and a place, and of the explanation the reason, and the number of the line, the column and
/// the width before it.
type Row = (RefusalKind, usize, Reason, (usize, usize, usize));

const ROWS: &[Row] = &[
    (RefusalKind::TooDeep, 4, Reason::TooDeep, (1, 3, 2)),
    (RefusalKind::TooDeep, 3, Reason::TooDeep, (1, 3, 2)),
    (RefusalKind::NotSingular, 2, Reason::NotSingular, (1, 3, 2)),
    (
        RefusalKind::ArgumentCount,
        5,
        Reason::ArgumentCount,
        (1, 4, 4),
    ),
    (RefusalKind::IllTyped, 6, Reason::IllTyped, (2, 1, 0)),
    (RefusalKind::NumberRange, 7, Reason::NumberRange, (2, 2, 1)),
    (RefusalKind::NoMemory, 0, Reason::NoMemory, (1, 1, 0)),
    (RefusalKind::TextTooLong, 99, Reason::TextTooLong, (2, 4, 3)),
];

#[test]
fn each_kind_and_place_is_explained(rt: HostRuntime) -> Result<(), Fail> {
    assert_kinds(&rt, rt.alloc(), "$.\u{65e5}\n.ab", ROWS)
}

fn assert_kinds(rt: &impl Abort, alloc: Global, text: &str, rows: &[Row]) -> Result<(), Fail> {
    for (kind, place, reason, found) in rows {
        let refusal = Refusal {
            kind: *kind,
            place: *place,
        };
        let told = explain(alloc, text, Standard, refusal, Surroundings::Library)?;
        let is_alone = told.suggestion.is_none();
        let place = (told.line_number, told.column, told.width_before);
        assert_eq!(rt; (told.reason, place, is_alone), (*reason, *found, true));
    }
    Ok(())
}
