//! Values of which nothing is kept.

ghost use Rattle.std.specs.Prelude.{◌≡◌, ◌<◌, List, ℕ, OnSome, length, true};
ghost use Rattle.json.specs.Align.{is_good};
ghost use Rattle.jp_flat.specs.Flat.{shown};
ghost use Rattle.jp_flat.specs.Private.Found.{PassesItems, PassesLeaf, PassesMembers, PassesValue};
ghost use Rattle.jp_flat.specs.Private.Tokens.{IsSaid, TokenHolds, said, token_of};

use crate::cursor::Cursor;
use crate::escapes::has_content;
use crate::number::number;
use crate::numeral::passed;
use crate::tables::Tables;
use crate::token::{Spelled, Token};

/// Passes over one value. None where there is none, nested no deeper than so, that a document can hold whose
/// numbers are as the tables take them.
#[cycle(passing)]
#[inline(always)]
pub(crate) fn pass_value<const EXACT: bool>(
    tables: &Tables<'_>,
    reader: &mut Cursor<'_>,
    depth: usize,
) -> Option<()>
    ensures passes { OnSome result (PassesValue (shown tables.now) depth reader.old.tokens reader.new.tokens) }
    ensures shorter { OnSome result (length reader.new.tokens < length reader.old.tokens) }
    ensures text { reader.new.text ≡ reader.old.text }
{
    let token = reader.next::<EXACT>()?;
    match token {
        Token::BeginArray => {
            let inside = depth.checked_sub(1)?;
            pass_items::<EXACT>(tables, reader, inside)
        }
        Token::BeginObject => {
            let inside = depth.checked_sub(1)?;
            pass_members::<EXACT>(tables, reader, inside)
        }
        _ => pass_leaf::<EXACT>(tables, token),
    }
}

/// Passes over the items of a list.
#[cycle(passing)]
fn pass_items<const EXACT: bool>(
    tables: &Tables<'_>,
    reader: &mut Cursor<'_>,
    depth: usize,
) -> Option<()>
    ensures passes { OnSome result (PassesItems (shown tables.now) depth reader.old.tokens reader.new.tokens) }
    ensures shorter { OnSome result (length reader.new.tokens < length reader.old.tokens) }
    ensures text { reader.new.text ≡ reader.old.text }
{
    let mut count = 0u32;
    'items: while !reader.take_end_array() {
        pass_value::<EXACT>(tables, reader, depth)?;
        count = count.checked_add(1)?;
    }
    Some(())
}

/// Passes over the members of an object.
#[cycle(passing)]
fn pass_members<const EXACT: bool>(
    tables: &Tables<'_>,
    reader: &mut Cursor<'_>,
    depth: usize,
) -> Option<()>
    ensures passes { OnSome result (PassesMembers (shown tables.now) depth reader.old.tokens reader.new.tokens) }
    ensures shorter { OnSome result (length reader.new.tokens < length reader.old.tokens) }
    ensures text { reader.new.text ≡ reader.old.text }
{
    'members: while let Some(name) = reader.next_name()? {
        pass_text(name)?;
        pass_value::<EXACT>(tables, reader, depth)?;
    }
    Some(())
}

/// Passes over a value that is a token alone. None where the token is none.
#[inline(always)]
fn pass_leaf<const EXACT: bool>(tables: &Tables<'_>, token: Token<'_>) -> Option<()>
    requires { (text : List ℕ) × TokenHolds text token }
    ensures passes { OnSome result (PassesLeaf (shown tables.now) (token_of token.entry)) }
    ensures good { OnSome result (is_good (token_of token.entry) ≡ true) }
{
    match token {
        Token::Null | Token::Bool(_) => Some(()),
        Token::Number(text, size) => {
            number(text, size)?;
            Some(())
        }
        Token::Numeral(_, text) => passed::<EXACT>(tables, text),
        Token::Text(text) => pass_text(text),
        Token::BeginArray
        | Token::BeginObject
        | Token::EndArray
        | Token::EndObject
        | Token::Key(_) => None,
    }
}

/// Passes over a text. None where its escapes are none.
#[inline(always)]
pub(crate) fn pass_text(text: Spelled<'_>) -> Option<()>
    ensures { OnSome result (IsSaid (said text.entry)) }
{
    match text {
        Spelled::Plain(_, _) => Some(()),
        Spelled::Escaped(quoted) => {
            let text = quoted.get(1..)?;
            if has_content(text) { Some(()) } else { None }
        }
    }
}
