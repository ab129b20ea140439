//! Comparisons of a document's values. The standard's rows are in jp_command's table.

use jp_document::{Json, parsed_value};
use jp_select::{Comparable, Steps, Stopped, compare, equal, less};
use jp_tree::Op;
use std::process::Abort;
use std::test::Fail;

/// The item at an index of a list, None where there is none.
fn item(list: &Json, index: usize) -> Option<&Json> {
    match list {
        Json::List(items) => items.get(index),
        _ => None,
    }
}

/// Two items of `LIST` and a comparison of them, its answer, and how many steps it takes. No item is at 3.
const ROWS: &[(usize, Op, usize, bool, u64)] = &[
    (3, Op::LessEqual, 3, true, 2),
    (3, Op::Equal, 2, false, 1),
    (0, Op::GreaterEqual, 0, true, 5),
    (0, Op::Equal, 1, false, 1),
];

const LIST: &[u8] = br#"[{"x":"y"},{"x":"y","z":0},null]"#;

/// What a comparison of two items answers within so many steps, and how many are left.
fn compared(
    list: &Json,
    (left, op, right): (usize, Op, usize),
    most: u64,
) -> (Result<bool, Stopped>, u64) {
    let mut steps = Steps::at_most(most);
    let left = Comparable::of(item(list, left));
    let answer = compare(op, left, Comparable::of(item(list, right)), &mut steps);
    (answer, steps.left())
}

/// Asserts the answers of the rows, and that fewer steps do not suffice for them.
fn assert_rows(rt: &impl Abort, list: &Json) {
    for (left, op, right, expected, count) in ROWS {
        let asked = (*left, *op, *right);
        let (answer, left) = compared(list, asked, *count);
        assert_eq!(rt; (answer, left), (Ok(*expected), 0), "{expected} in {count}");
        let (stopped, _) = compared(list, asked, count.saturating_sub(1));
        assert_eq!(rt; stopped, Err(Stopped), "{expected} in fewer than {count}");
    }
}

#[test]
fn comparisons(rt: HostRuntime) -> Result<(), Fail> {
    let list = parsed_value(rt.alloc(), LIST)?;
    assert_rows(&rt, &list);
    Ok(())
}

/// Whether one item is less than another, the other than the one, whether they are equal, and whether the other is
/// equal to itself.
fn order(list: &Json, lower: usize, higher: usize) -> (bool, bool, bool, bool) {
    let (lower, higher) = (item(list, lower), item(list, higher));
    (
        less(lower, higher),
        less(higher, lower),
        equal(lower, higher),
        equal(higher, higher),
    )
}

#[test]
fn numbers_and_texts_in_order(rt: HostRuntime) -> Result<(), Fail> {
    let text = r#"[18446744073709551614,18446744073709551615,"\uffff","😀"]"#;
    let list = parsed_value(rt.alloc(), text.as_bytes())?;
    let orders = (order(&list, 0, 1), order(&list, 2, 3));
    let rises = (true, false, false, true);
    assert_eq!(rt; orders, (rises, rises));
    Ok(())
}
