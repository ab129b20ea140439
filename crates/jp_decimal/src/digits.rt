//! Digits as a number that does not end in 0, and zeros behind it.

ghost use Rattle.std.specs.Prelude.{◌≡◌, ◌≢◌, ◌*◌, ◌+◌, ◌^◌, ◌<◌, ◌≤◌, ◌++◌, length};
ghost use Rattle.std.specs.Option.{MatchOption, SomeIff};
ghost use Rattle.std.specs.Char.{digit_value};
ghost use Rattle.std.specs.Str.Parse.{AllDigits, digits_value, digits_value_after};
ghost use Rattle.fast_float.specs.Text.{digits_of};
ghost use Rattle.jp_decimal.specs.Private.Runs.{IsLong, IsRun, run_value};

use core::dec2flt::Numeral;

/// The number `size`, which does not end in 0, with so many zeros behind it.
#[derive(Clone, Copy)]
pub(crate) struct Run {
    pub size: u128,
    pub zeros: u64,
}

/// What the digits of a number write, before and behind its point, as one whole number. None: it
/// has more than 38 digits without the zeros at its end.
#[inline(always)]
pub(crate) fn run_of(numeral: &Numeral<'_>) -> Option<Run>
    requires { length numeral.now.whole + length numeral.now.fraction < 2 ^ 63 }
    ensures { MatchOption result (IsLong (digits_of numeral.now))
        (λ r. IsRun r × (run_value r ≡ digits_of numeral.now) × (r.zeros < 2 ^ 63)) }
{
    let (whole, fraction) = (numeral.whole(), numeral.fraction());
    if whole.len() + fraction.len() <= 19 {
        let run = stripped(numeral.wrapped_digits());
        return Some(run);
    }
    long_run(whole, fraction)
}

/// A number of 64 bits without the zeros at its end.
#[inline(always)]
fn stripped(number: u64) -> Run
    ensures run { IsRun result }
    ensures value { run_value result ≡ number }
    ensures few { result.zeros < 20 }
{
    if number == 0 {
        return Run { size: 0, zeros: 0 };
    }
    let mut size = number;
    let mut zeros = 0u64;
    'zeros: while size % 10 == 0 {
        size /= 10;
        zeros += 1;
    }
    Run {
        size: u128::from(size),
        zeros,
    }
}

/// What the digits write that stand before a point, and those behind it. None as of `run_of`.
fn long_run(whole: &[u8], fraction: &[u8]) -> Option<Run>
    requires digits { AllDigits 10 (whole.now ++ fraction.now) }
    requires room { length whole.now + length fraction.now < 2 ^ 63 }
    ensures { MatchOption result (IsLong (digits_value 10 (whole.now ++ fraction.now)))
        (λ r. IsRun r × (run_value r ≡ digits_value 10 (whole.now ++ fraction.now))
        × (r.zeros < 2 ^ 63)) }
{
    let none = Run { size: 0, zeros: 0 };
    let front = with_digits(none, whole)?;
    let both = with_digits(front, fraction)?;
    Some(both)
}

/// The run with these digits behind it. None as of `run_of`.
fn with_digits(run: Run, digits: &[u8]) -> Option<Run>
    requires run { IsRun run }
    requires digits { AllDigits 10 digits.now }
    requires room { run.zeros + length digits.now < 2 ^ 63 }
    ensures { MatchOption result (IsLong (digits_value_after 10 (run_value run) digits.now))
        (λ r. IsRun r × (run_value r ≡ digits_value_after 10 (run_value run) digits.now)
        × (r.zeros ≤ run.zeros + length digits.now)) }
{
    let mut longer = run;
    for digit in digits {
        longer = with_digit(longer, *digit - b'0')?;
    }
    Some(longer)
}

/// The run with one more digit. None as of `run_of`.
fn with_digit(run: Run, digit: u8) -> Option<Run>
    requires run { IsRun run }
    requires digit { digit < 10 }
    requires room { run.zeros < 2 ^ 63 }
    ensures { MatchOption result (IsLong (run_value run * 10 + digit))
        (λ r. IsRun r × (run_value r ≡ run_value run * 10 + digit) × (r.zeros ≤ run.zeros + 1)) }
{
    if digit == 0 {
        return Some(Run {
            size: run.size,
            zeros: run.zeros + 1,
        });
    }
    let size = size_with_digit(run.size, run.zeros + 1, digit)?;
    Some(Run { size, zeros: 0 })
}

/// The size with so many zeros behind it, and a digit in place of the last zero, if that has at
/// most 38 digits.
fn size_with_digit(size: u128, by: u64, digit: u8) -> Option<u128>
    requires digit { digit < 10 }
    requires some { 0 < by }
    ensures { SomeIff result (size * 10 ^ by + digit < 10 ^ 38) (size * 10 ^ by + digit) }
{
    if by == 1 {
        return tenfold(size, digit);
    }
    if size == 0 {
        return Some(u128::from(digit));
    }
    if by >= 38 {
        return None;
    }
    let power = 10u128.pow(by as u32);
    if size >= LIMIT / power {
        return None;
    }
    Some(size * power + u128::from(digit))
}

/// The size with a digit behind it, if that has at most 38 digits.
#[inline(always)]
fn tenfold(size: u128, digit: u8) -> Option<u128>
    requires { digit < 10 }
    ensures { SomeIff result (size * 10 ^ 1 + digit < 10 ^ 38) (size * 10 ^ 1 + digit) }
{
    if size >= LIMIT / 10 {
        None
    } else {
        Some(size * 10 + u128::from(digit))
    }
}

/// Ten to the 38.
const LIMIT: u128 = 100_000_000_000_000_000_000_000_000_000_000_000_000;
