//! What is counted, up to 64 bits.

use jp_lines::Tally;
use std::alloc::AllocError;

const MOST: Tally = Tally {
    documents: u64::MAX,
    refused: u64::MAX,
    selected: u64::MAX,
};

#[test]
fn counts_one_line_after_the_other(rt: HostRuntime) -> Result<(), AllocError> {
    let counted = Tally::none()
        .with(Tally::of_document(3))?
        .with(Tally::of_refusal())?
        .with(Tally::of_document(0))?;
    let expected = Tally {
        documents: 2,
        refused: 1,
        selected: 3,
    };
    assert_eq!(rt; counted, expected);
    assert_eq!(rt; MOST.with(Tally::none()), Ok(MOST));
    Ok(())
}

#[test]
fn counts_no_further_than_64_bits(rt: HostRuntime) {
    let full = [
        Tally {
            documents: u64::MAX,
            ..Tally::none()
        },
        Tally {
            selected: u64::MAX,
            ..Tally::none()
        },
    ];
    for tally in full {
        assert_eq!(rt; tally.with(Tally::of_document(1)), Err(AllocError));
    }
    assert_eq!(rt; MOST.with(Tally::of_refusal()), Err(AllocError));
}
