//! Numbers by the rules of RFC 8259 section 6 and by arithmetic, and their texts by those of RFC
//! 8785.

use jp_decimal::{Decimal, Number, compare, number_of, push_number};
use std::cmp::Ordering;
use std::test::Fail;

/// Texts of whole numbers of 64 bits.
const WHOLE: &[(&str, i128)] = &[
    ("0", 0),
    ("-0", 0),
    ("-0.0", 0),
    ("0e999999999999", 0),
    ("0.000e-999999999999999999999999999", 0),
    ("1", 1),
    ("1.0", 1),
    ("1e0", 1),
    ("10e-1", 1),
    ("0.1E1", 1),
    ("1e2", 100),
    ("100", 100),
    ("1.50e1", 15),
    ("-12E+1", -120),
    ("9007199254740993", 9_007_199_254_740_993),
    ("18446744073709551615", 18_446_744_073_709_551_615),
    ("1.8446744073709551615e19", 18_446_744_073_709_551_615),
    ("-9223372036854775808", -9_223_372_036_854_775_808),
    ("1e19", 10_000_000_000_000_000_000),
];

/// Texts of other numbers, as a coefficient and an exponent.
const DECIMALS: &[(&str, i128, i32)] = &[
    ("0.1", 1, -1),
    ("0.10", 1, -1),
    ("1e-1", 1, -1),
    ("8.99", 899, -2),
    ("899e-2", 899, -2),
    ("9007199254740993.5", 90_071_992_547_409_935, -1),
    ("5e-324", 5, -324),
    ("1e400", 1, 400),
    ("10e400", 1, 401),
    ("1.7976931348623157e308", 17_976_931_348_623_157, 292),
    ("-1.5", -15, -1),
    ("-1.5e-9", -15, -10),
    ("18446744073709551616", 18_446_744_073_709_551_616, 0),
    ("1.8446744073709551616e19", 18_446_744_073_709_551_616, 0),
    ("-9223372036854775809", -9_223_372_036_854_775_809, 0),
    ("1e20", 1, 20),
    (
        "12345678901234567890123456789012345678",
        12_345_678_901_234_567_890_123_456_789_012_345_678,
        0,
    ),
    (
        "-123456789012345678901234567890.1234567800",
        -12_345_678_901_234_567_890_123_456_789_012_345_678,
        -8,
    ),
    ("1e1000000", 1, 1_000_000),
    ("100e999998", 1, 1_000_000),
    ("0.01e-999998", 1, -1_000_000),
    ("1e-1000000", 1, -1_000_000),
];

/// Texts of numbers that can't be held: of 39 digits, or of an exponent beyond either end.
const OUT_OF_RANGE: &[&str] = &[
    "123456789012345678901234567890123456789",
    "123456789012345678901234567890.123456789",
    "1.00000000000000000000000000000000000001",
    "1e1000001",
    "10e1000000",
    "1e-1000001",
    "0.1e-1000000",
    "1e18446744073709551616",
    "1e-99999999999999999999999999999999999999999",
];

/// From the least to the greatest, no two of which are the same number.
const RISING: &[&str] = &[
    "-1e1000000",
    "-1e400",
    "-18446744073709551616",
    "-9223372036854775809",
    "-9223372036854775808",
    "-2",
    "-1.5",
    "-1",
    "-0.2",
    "-0.1",
    "-1.5e-9",
    "-5e-324",
    "-0.0",
    "1e-1000000",
    "5e-324",
    "1e-7",
    "0.1",
    "0.3",
    "0.3000000000000000000000000000000000001",
    "1.0",
    "1.5",
    "2",
    "8.95",
    "8.99",
    "9007199254740992",
    "9007199254740992.5",
    "9007199254740993",
    "9007199254740993.5",
    "18446744073709551615",
    "18446744073709551615.1",
    "18446744073709551616",
    "99999999999999999999999999999999999999",
    "1e38",
    "1e400",
    "10e400",
    "1e1000000",
];

/// Texts that are written as they stand; from the third on they are those of RFC 8785 appendix B.
const AS_THEY_STAND: &[&str] = &[
    "8.95",
    "1e-7",
    "0",
    "5e-324",
    "-5e-324",
    "1.7976931348623157e+308",
    "-1.7976931348623157e+308",
    "9007199254740992",
    "-9007199254740992",
    "295147905179352830000",
    "9.999999999999997e+22",
    "1e+23",
    "1.0000000000000001e+23",
    "999999999999999700000",
    "999999999999999900000",
    "1e+21",
    "9.999999999999997e-7",
    "0.000001",
    "333333333.3333332",
    "333333333.33333325",
    "333333333.3333333",
    "333333333.3333334",
    "333333333.33333343",
    "-0.0000033333333333333333",
    "1424953923781206.2",
];

/// Texts, and those that their numbers have.
const WRITTEN: &[(&str, &str)] = &[
    ("-0", "0"),
    ("1.0", "1"),
    ("1e0", "1"),
    ("-12E+1", "-120"),
    ("0.10", "0.1"),
    ("1.50", "1.5"),
    ("15e-1", "1.5"),
    ("1e-6", "0.000001"),
    ("0.0000001", "1e-7"),
    ("-0.00000015", "-1.5e-7"),
    ("1E400", "1e+400"),
    ("15e399", "1.5e+400"),
    ("1e20", "100000000000000000000"),
    ("1e21", "1e+21"),
    ("18446744073709551620", "18446744073709551620"),
    ("123456789012345678901", "123456789012345678901"),
    ("-123456789012345678901.5", "-123456789012345678901.5"),
    ("1234567890123456789012", "1.234567890123456789012e+21"),
    ("1234567890123456789012.5", "1.2345678901234567890125e+21"),
    (
        "123456789012345678901234567890.12345678",
        "1.2345678901234567890123456789012345678e+29",
    ),
];

/// A digit that stands in a text so often, between two others.
const LONG: &[(&str, &str, usize, &str, Option<Number>)] = &[
    ("0.", "0", 1_000_000, "", Some(Number::Whole(0))),
    ("-0.", "0", 1_000_000, "e9", Some(Number::Whole(0))),
    ("0e", "9", 1_000_000, "", Some(Number::Whole(0))),
    ("1.", "0", 1_000_000, "", Some(Number::Whole(1))),
    ("1e-", "0", 1_000_000, "1", TENTH),
    ("1", "0", 1_000_000, "", GREATEST_POWER),
    ("1", "0", 1_000_001, "", None),
    ("0.", "0", 999_999, "1", LEAST_POWER),
    ("0.", "0", 1_000_000, "1", None),
    ("", "9", 1_000_000, "", None),
    ("1e", "9", 1_000_000, "", None),
    ("1", "0", 1_000_000, "e-1000000", Some(Number::Whole(1))),
];

const TENTH: Option<Number> = Some(Number::Decimal(Decimal {
    coefficient: 1,
    exponent: -1,
}));

const GREATEST_POWER: Option<Number> = Some(Number::Decimal(Decimal {
    coefficient: 1,
    exponent: 1_000_000,
}));

const LEAST_POWER: Option<Number> = Some(Number::Decimal(Decimal {
    coefficient: 1,
    exponent: -1_000_000,
}));

#[test]
fn whole_numbers(rt: HostRuntime) {
    for &(text, value) in WHOLE {
        assert!(rt;
            number_of(text.as_bytes()) == Some(Number::Whole(value)),
            "{text}"
        );
    }
}

#[test]
fn decimals(rt: HostRuntime) {
    for &(text, coefficient, exponent) in DECIMALS {
        let wanted = Number::Decimal(Decimal {
            coefficient,
            exponent,
        });
        assert!(rt; number_of(text.as_bytes()) == Some(wanted), "{text}");
    }
}

#[test]
fn numbers_out_of_range(rt: HostRuntime) {
    for text in OUT_OF_RANGE {
        assert!(rt; number_of(text.as_bytes()).is_none(), "{text}");
    }
}

/// How the numbers of two texts stand, where both can be held.
fn stand(x: &str, y: &str) -> Option<Ordering> {
    match (number_of(x.as_bytes()), number_of(y.as_bytes())) {
        (Some(a), Some(b)) => Some(compare(a, b)),
        _ => None,
    }
}

#[test]
fn order(rt: HostRuntime) {
    for (i, x) in RISING.iter().enumerate() {
        for (j, y) in RISING.iter().enumerate() {
            assert!(rt; stand(x, y) == Some(i.cmp(&j)), "{x} {y}");
        }
    }
}

/// The text of the number that a text writes.
fn written(rt: &HostRuntime, text: &str) -> Result<String, Fail> {
    let mut line = String::new(rt.alloc());
    let number = number_of(text.as_bytes()).ok_or("out of range")?;
    push_number(&mut line, number)?;
    Ok(line)
}

#[test]
fn texts(rt: HostRuntime) -> Result<(), Fail> {
    for text in AS_THEY_STAND {
        let line = written(&rt, text)?;
        assert_eq!(rt; line.as_str(), *text);
    }
    for &(text, wanted) in WRITTEN {
        let line = written(&rt, text)?;
        assert_eq!(rt; line.as_str(), wanted);
    }
    Ok(())
}

/// The number of a text with a digit in it so often.
fn long(
    rt: &HostRuntime,
    front: &str,
    digit: &str,
    count: usize,
    end: &str,
) -> Result<Option<Number>, Fail> {
    let mut text = String::new(rt.alloc());
    text.push_str(front)?;
    let middle = digit.repeat(rt.alloc(), count)?;
    text.push_str(&middle)?;
    text.push_str(end)?;
    Ok(number_of(text.as_bytes()))
}

#[test]
fn long_texts(rt: HostRuntime) -> Result<(), Fail> {
    for &(front, digit, count, end, wanted) in LONG {
        let number = long(&rt, front, digit, count, end)?;
        assert!(rt; number == wanted, "{front} {digit} {count} {end}");
    }
    Ok(())
}
