//! Values that have no parts, which go to the tables as they are read.

ghost use Rattle.std.specs.Prelude.{◌≡◌, ◌<◌, ◌∷◌, IfSome, OnSome, length, true};
ghost use Rattle.json.specs.Align.{is_good};
ghost use Rattle.jp_flat.specs.Flat.{Grows, shown};
ghost use Rattle.jp_flat.specs.Private.Kept.{IsBare};
ghost use Rattle.jp_flat.specs.Private.Reading.{ReadsLeaf, ReadsLeaves};
ghost use Rattle.jp_flat.specs.Private.Tokens.{TokenHolds, token_of};

use crate::cursor::Cursor;
use crate::item::Item;
use crate::moving::put;
use crate::number::number;
use crate::numeral::taken;
use crate::spans::text_span;
use crate::tables::Tables;
use crate::token::Token;

/// Reads the values at the front of a list that have no parts, behind the items of the tables, and
/// answers the token behind them.
pub(crate) fn leaves<'a, const EXACT: bool>(
    tables: &mut Tables<'_>,
    reader: &mut Cursor<'a>,
) -> Option<Token<'a>>
    requires { reader.old.text ≡ tables.old.text.now }
    ensures reads { IfSome result (λ t. ReadsLeaves reader.old.tokens (token_of t ∷ reader.new.tokens)
        (shown tables.old) (shown tables.new)) }
    ensures good { IfSome result (λ t. is_good (token_of t) ≡ true) }
    ensures shorter { OnSome result (length reader.new.tokens < length reader.old.tokens) }
    ensures text { reader.new.text ≡ reader.old.text }
{
    'leaves: loop {
        let token = reader.next::<EXACT>()?;
        match token {
            Token::EndArray | Token::BeginArray | Token::BeginObject => return Some(token),
            _ => {
                let item = leaf::<EXACT>(tables, token)?;
                put(&mut tables.items, item)?;
            }
        }
    }
}

/// The value of a token alone, with its text in the tables.
#[inline(always)]
pub(crate) fn leaf<const EXACT: bool>(tables: &mut Tables<'_>, token: Token<'_>) -> Option<Item>
    requires { TokenHolds tables.old.text.now token }
    ensures leaf { IfSome result (ReadsLeaf (token_of token.entry) (shown tables.new)) }
    ensures bare { IfSome result (IsBare (shown tables.new)) }
    ensures good { OnSome result (is_good (token_of token.entry) ≡ true) }
    ensures grows { OnSome result (Grows (shown tables.old) (shown tables.new)) }
    ensures items { OnSome result (tables.new.items.items ≡ tables.old.items.items) }
{
    match token {
        Token::Null => Some(Item::Null),
        Token::Bool(truth) => Some(Item::Bool(truth)),
        Token::Number(text, size) => {
            let item = number(text, size)?;
            Some(item)
        }
        Token::Numeral(first, text) => {
            let item = taken::<EXACT>(tables, first, text)?;
            Some(item)
        }
        Token::Text(text) => {
            let span = text_span(tables, text)?;
            Some(Item::Text(span))
        }
        Token::BeginArray
        | Token::BeginObject
        | Token::EndArray
        | Token::EndObject
        | Token::Key(_) => None,
    }
}
