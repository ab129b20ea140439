//! Slices (RFC 9535 section 2.3.4).

ghost use Rattle.jp_reading.specs.Views.{Gives};
ghost use Rattle.jp_query.specs.Private.Rules as rules;
ghost use Rattle.jp_query.specs.Private.Reading.{read_flat};

use crate::ints::{begins_int, int_component};
use jp_reading::{Reader, Stop};
use jp_tree::{Numeral, Slice};

/// A slice with that start, from its colon on.
#[tactic(auto, unfolding(crate::specs::Private::Rules::slice_from))]
pub(crate) fn slice(reader: &mut Reader, start: Option<Numeral>) -> Result<Slice, Stop>
    ensures { Gives (λ s. s) result reader.new (read_flat (rules.slice_from start) reader.old) }
{
    reader.expect(':')?;
    let end = bound(reader)?;
    let step = step(reader)?;
    Ok(Slice { start, end, step })
}

/// A bound, if one begins past the blanks; else the reader stays before them.
#[tactic(auto, unfolding(crate::specs::Private::Rules::bound))]
fn bound(reader: &mut Reader) -> Result<Option<Numeral>, Stop>
    ensures { Gives (λ b. b) result reader.new (read_flat rules.bound reader.old) }
{
    if !begins_int(reader.peek_past_blank()) {
        return Ok(None);
    }
    reader.skip();
    let bound = int_component(reader)?;
    Ok(Some(bound))
}

/// A colon and a step past the blanks, or neither: an omitted step is 1.
#[tactic(auto, unfolding(crate::specs::Private::Rules::step))]
fn step(reader: &mut Reader) -> Result<Numeral, Stop>
    ensures { Gives (λ n. n) result reader.new (read_flat rules.step reader.old) }
{
    if reader.is_before(':') {
        reader.skip();
        reader.bump();
        return later_step(reader);
    }
    reader.omit_component()?;
    Ok(Numeral::Whole(1))
}

/// A step after its colon; the reader stays before blanks that no step follows.
#[tactic(auto, unfolding(crate::specs::Private::Rules::later_step))]
fn later_step(reader: &mut Reader) -> Result<Numeral, Stop>
    ensures { Gives (λ n. n) result reader.new (read_flat rules.later_step reader.old) }
{
    if begins_int(reader.peek_past_blank()) {
        reader.skip();
        return int_component(reader);
    }
    reader.omit_component()?;
    Ok(Numeral::Whole(1))
}
