//! Decimals among values: how they compare, and what they are written as. The expected order is that of
//! arithmetic, the texts are those of RFC 8785 section 3.2.2.3.

use jp_document::Json;
use jp_lent::value_text;
use jp_select::{equal, less};
use std::alloc::{AllocError, Global};
use std::test::Fail;

/// Numbers from the least to the greatest: a whole number as its digits with no exponent, others by their
/// coefficient and exponent.
const RISING: &[(i128, Option<i32>)] = &[
    (-1, Some(400)),
    (-18446744073709551617, Some(0)),
    (-9223372036854775808, None),
    (-1, None),
    (-15, Some(-10)),
    (0, None),
    (5, Some(-324)),
    (1, Some(-1)),
    (895, Some(-2)),
    (899, Some(-2)),
    (9, None),
    (9007199254740992, None),
    (9007199254740993, None),
    (90071992547409935, Some(-1)),
    (18446744073709551615, None),
    (18446744073709551616, Some(0)),
    (1, Some(20)),
    (1, Some(400)),
    (1, Some(401)),
    (99999999999999999999999999999999999999, Some(1000000)),
];

fn number(digits: i128, exponent: Option<i32>) -> Json {
    match exponent {
        Some(exponent) => Json::Decimal {
            exponent,
            coefficient: digits,
        },
        None => Json::Whole(digits),
    }
}

/// Whether one number is less than another, and whether they are equal.
fn order(left: (i128, Option<i32>), right: (i128, Option<i32>)) -> (bool, bool) {
    let (left, right) = (number(left.0, left.1), number(right.0, right.1));
    (
        less(Some(&left), Some(&right)),
        equal(Some(&left), Some(&right)),
    )
}

#[test]
fn numbers_in_their_order(rt: HostRuntime) {
    for (at, left) in RISING.iter().enumerate() {
        for (beside, right) in RISING.iter().enumerate() {
            let wanted = (at < beside, at == beside);
            assert_eq!(rt; order(*left, *right), wanted, "{at} and {beside}");
        }
    }
}

/// Whether a value is apart from the price 8.95: neither below it, above it nor equal to it.
fn is_apart(other: Option<&Json>) -> bool {
    let price = number(895, Some(-2));
    !less(Some(&price), other) && !less(other, Some(&price)) && !equal(Some(&price), other)
}

#[test]
fn decimals_beside_other_values(rt: HostRuntime) -> Result<(), Fail> {
    let text = Json::Text(String::from_str(rt.alloc(), "8.95")?);
    assert!(rt; is_apart(Some(&text)) && is_apart(Some(&Json::Null)) && is_apart(None));
    Ok(())
}

/// A list of a number of hundredths.
fn list_of(alloc: Global, hundredths: i128) -> Result<Json, AllocError> {
    Ok(Json::List(vec![in alloc; number(hundredths, Some(-2))]?))
}

#[test]
fn decimals_in_lists(rt: HostRuntime) -> Result<(), Fail> {
    let list = list_of(rt.alloc(), 895)?;
    let same = list_of(rt.alloc(), 895)?;
    let other = list_of(rt.alloc(), 896)?;
    let equals = (
        equal(Some(&list), Some(&same)),
        equal(Some(&list), Some(&other)),
        is_apart(Some(&list)),
    );
    assert_eq!(rt; equals, (true, false, true));
    Ok(())
}

/// Coefficients and exponents, and what their numbers are written as.
const WRITTEN: &[(i128, i32, &str)] = &[
    (895, -2, "8.95"),
    (1, 400, "1e+400"),
    (17976931348623157, 292, "1.7976931348623157e+308"),
    (1, -6, "0.000001"),
    (1, -7, "1e-7"),
    (1, 20, "100000000000000000000"),
    (-15, -10, "-1.5e-9"),
    (18446744073709551616, 0, "18446744073709551616"),
];

/// What a decimal is written as.
fn written(alloc: Global, coefficient: i128, exponent: i32) -> Result<String, AllocError> {
    let value = number(coefficient, Some(exponent));
    value_text(alloc, &value)
}

#[test]
fn decimals_written(rt: HostRuntime) -> Result<(), Fail> {
    for (coefficient, exponent, text) in WRITTEN {
        let written = written(rt.alloc(), *coefficient, *exponent)?;
        assert_eq!(rt; written.as_str(), *text);
    }
    Ok(())
}
