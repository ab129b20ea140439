//! Operators of comparisons (RFC 9535 section 2.3.5.1, comparison-op).

ghost use Rattle.std.specs.Prelude.{◌≡◌};
ghost use Rattle.jp_reading.specs.Outcome.{took, after_blank, passes};
ghost use Rattle.jp_reading.specs.Views.{Gives};
ghost use Rattle.jp_query.specs.Private.Rules as rules;
ghost use Rattle.jp_query.specs.Private.Rules.{begins_operator};
ghost use Rattle.jp_query.specs.Private.Reading.{read_flat};

use jp_reading::{Reader, Stop};
use jp_tree::Op;

/// An operator of a comparison.
#[tactic(auto, unfolding(crate::specs::Private::Rules::operator))]
pub(crate) fn operator(reader: &mut Reader) -> Result<Op, Stop>
    ensures { Gives (λ op. op) result reader.new (read_flat rules.operator reader.old) }
{
    match reader.peek() {
        Some('=') => {
            reader.bump();
            with_equals(reader, Op::Equal)
        },
        Some('!') => {
            reader.bump();
            with_equals(reader, Op::Unequal)
        },
        Some('<') => {
            reader.bump();
            Ok(alone_or_with_equals(reader, Op::Less, Op::LessEqual))
        },
        Some('>') => {
            reader.bump();
            Ok(alone_or_with_equals(reader, Op::Greater, Op::GreaterEqual))
        },
        _ => Err(Stop::Syntax(reader.place())),
    }
}

/// Whether an operator of a comparison begins past the blanks.
pub(crate) fn is_before_operator(reader: &Reader) -> bool
    ensures { result ≡ passes begins_operator (after_blank reader.now) }
{
    matches!(reader.peek_past_blank(), Some('=' | '!' | '<' | '>'))
}

/// The operator whose first character is taken, and whose second is `=`.
fn with_equals(reader: &mut Reader, op: Op) -> Result<Op, Stop>
    ensures { Gives (λ x. x) result reader.new (read_flat (rules.with_equals op) reader.old) }
{
    reader.expect('=')?;
    Ok(op)
}

/// The operator whose first character is taken: the one with a `=` after it, if it stands there, or
/// the other.
fn alone_or_with_equals(reader: &mut Reader, alone: Op, with_equals: Op) -> Op
    ensures { read_flat (rules.alone_or_with_equals alone with_equals) reader.old
        ≡ took result reader.new }
{
    if reader.is_at('=') {
        reader.bump();
        with_equals
    } else {
        alone
    }
}
