//! Quantifiers (RFC 9485 section 3).

ghost use Rattle.jp_reading.specs.Views.{Gives};
ghost use Rattle.jp_iregexp.specs.Private.Reading.{quantifier_at, braces_at, most_at, number_at};

use jp_reading::{Reader, Stop, natural};

/// How often at least, and at most or with no upper end.
#[derive(Clone, Copy)]
pub(crate) struct Count {
    pub(crate) least: u32,
    pub(crate) most: Option<u32>,
}

/// A quantifier.
#[tactic(auto, unfolding(crate::specs::Private::Reading::quantifier_at))]
pub(crate) fn quantifier(reader: &mut Reader) -> Result<Count, Stop>
    ensures { Gives (λ x. x) result reader.new (quantifier_at reader.old) }
{
    let (least, most) = match reader.peek() {
        Some('*') => (0, None),
        Some('+') => (1, None),
        Some('?') => (0, Some(1)),
        _ => return braces(reader),
    };
    reader.bump();
    Ok(Count { least, most })
}

/// The numbers of a quantifier, between braces.
#[tactic(auto, unfolding(crate::specs::Private::Reading::braces_at))]
fn braces(reader: &mut Reader) -> Result<Count, Stop>
    ensures { Gives (λ x. x) result reader.new (braces_at reader.old) }
{
    reader.expect('{')?;
    let least = number(reader)?;
    let most = most(reader, least)?;
    reader.expect('}')?;
    Ok(Count { least, most })
}

/// What stands after the least number: nothing, a comma, or a comma and a number not below it.
#[tactic(auto, unfolding(crate::specs::Private::Reading::most_at))]
fn most(reader: &mut Reader, least: u32) -> Result<Option<u32>, Stop>
    ensures { Gives (λ x. x) result reader.new (most_at least reader.old) }
{
    if reader.is_at('}') {
        return Ok(Some(least));
    }
    reader.expect(',')?;
    if reader.is_at('}') {
        return Ok(None);
    }
    let most = number(reader)?;
    if most < least {
        return Err(Stop::Syntax(reader.place()));
    }
    Ok(Some(most))
}

/// A number of at most 999,999,999; leading zeros are allowed (QuantExact).
#[tactic(auto, unfolding(crate::specs::Private::Reading::number_at))]
fn number(reader: &mut Reader) -> Result<u32, Stop>
    ensures { Gives (λ n. n) result reader.new (number_at reader.old) }
{
    let number = natural(reader, 1_000_000_000)?;
    if 999_999_999 < number {
        return Err(Stop::Syntax(reader.place()));
    }
    Ok(number as u32)
}
