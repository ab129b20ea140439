//! Literals (RFC 9535 section 2.3.5.1, literal).

ghost use Rattle.jp_reading.specs.Views.{Gives};
ghost use Rattle.jp_tree.specs.Views.{literal_of};
ghost use Rattle.jp_query.specs.Private.Rules as rules;
ghost use Rattle.jp_query.specs.Private.Reading.{read_flat};

use crate::numbers::number;
use crate::strings::quoted;
use jp_reading::{Reader, Stop};
use jp_tree::Literal;

/// A literal that is no word: a string or a number.
#[tactic(auto, unfolding(crate::specs::Private::Rules::plain_literal))]
pub(crate) fn plain_literal(reader: &mut Reader) -> Result<Literal, Stop>
    ensures { Gives literal_of result reader.new (read_flat rules.plain_literal reader.old) }
{
    match reader.peek() {
        Some('"') => Ok(Literal::Text(quoted(reader, '"')?)),
        Some('\'') => Ok(Literal::Text(quoted(reader, '\'')?)),
        _ => Ok(Literal::Number(number(reader)?)),
    }
}
