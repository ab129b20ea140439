//! Mends of numbers.

use super::Piece::Kept;
use super::{Cut, Mended, joined, spliced};
use crate::class::{Class, split_prefix, split_suffix};
use crate::marks::{
    begins, begins_as, begins_in, ends, ends_as, without_first, without_last, without_name,
};
use crate::reason::Reason;
use std::alloc::Global;

/// The text with its numbers mended; None for the reasons of other files, and where no mend is plain.
pub(super) fn mended(alloc: Global, reason: Reason, cut: Cut<'_>) -> Mended {
    let Cut { front, rest } = cut;
    match reason {
        Reason::DotNumber => spliced(alloc, front, "0", rest),
        Reason::Thousands if begins_in(rest, ",_") => {
            joined(alloc, &[Kept(front), Kept(without_first(rest))])
        }
        Reason::Thousands if begins(rest, ".") => one_comma(alloc, cut),
        Reason::Thousands => {
            let kept = without_last(without_last(front));
            if ends(without_name(kept), ",") {
                Ok(None)
            } else {
                spliced(alloc, kept, "0", rest)
            }
        }
        Reason::LeadingZero | Reason::MinusZero => {
            joined(alloc, &[Kept(without_last(front)), Kept(rest)])
        }
        Reason::Plus if begins_as(without_first(rest), Class::Digit) => {
            joined(alloc, &[Kept(front), Kept(without_first(rest))])
        }
        Reason::IndexForm => without_zeros(alloc, cut, &[]),
        Reason::NotWhole => {
            let (sign, number) = rest.split_at(usize::from(begins(rest, "-")).min(rest.len()));
            let (digits, after) = split_prefix(number, Class::Digit);
            let (whole, _) = rest.split_at(rest.len().saturating_sub(after.len()));
            without_zeros(alloc, Cut { front, rest: after }, whole)
        }
        _ => Ok(None),
    }
}

/// A number with one comma, before the last three digits of its whole part, without it.
fn one_comma(alloc: Global, Cut { front, rest }: Cut<'_>) -> Mended {
    let (before, digits) = split_suffix(front, Class::Digit);
    let kept = without_last(before);
    if digits.len() != 3 || !ends_as(kept, Class::Digit) || ends(without_name(kept), ",") {
        return Ok(None);
    }
    joined(alloc, &[Kept(kept), Kept(digits), Kept(rest)])
}

/// A number whose fraction has zeros alone is the number without it: of this the whole part. With a comma and a
/// digit behind it, a number in a comparison may have the signs of another language.
fn without_zeros(alloc: Global, Cut { front, rest }: Cut<'_>, whole: &[char]) -> Mended {
    let (zeros, after) = split_prefix(without_first(rest), Class::Digit);
    let is_whole = begins(rest, ".") && !zeros.is_empty() && zeros.iter().all(|c| *c == '0');
    let has_comma = begins(after, ",") && begins_as(without_first(after), Class::Digit);
    if !is_whole || begins_in(after, "eE") || (has_comma && !whole.is_empty()) {
        return Ok(None);
    }
    joined(alloc, &[Kept(front), Kept(whole), Kept(after)])
}
