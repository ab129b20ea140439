//! Sides of comparisons: literals, queries and functions (RFC 9535 section 2.3.5.1, comparable).

ghost use Rattle.std.specs.Prelude.{◌≡◌, IfOk};
ghost use Rattle.std.specs.Str.{chars};
ghost use Rattle.std.specs.String.{string_bytes};
ghost use Rattle.jp_reading.specs.Views.{Gives, outcome_map};
ghost use Rattle.jp_tree.specs.Tree.{call_value, literal as literal_operand, node_value};
ghost use Rattle.jp_tree.specs.Views.{call_of, literal_of, query_of};
ghost use Rattle.jp_query.specs.Private.Parts.{boxed_operand, uncompared, uncompared_of};
ghost use Rattle.jp_query.specs.Private.Rules as rules;
ghost use Rattle.jp_query.specs.Private.Rules.{opens};
ghost use Rattle.jp_query.specs.Private.Reading.{call_inside, read_flat, read_inside};
ghost use Rattle.jp_reading.specs.Outcome.{head, passes};

use crate::calls::call_from;
use crate::expressions::tested;
use crate::lists::{append_char, boxed};
use crate::literals::plain_literal;
use crate::names::{goes_on, is_at_function};
use crate::segments::segments;
use jp_reading::{Reader, Stop};
use jp_tree::{Call, Expr, Literal, Operand, Query, Subject};
use std::alloc::{AllocError, Global};

/// A side of a comparison, which is a component.
#[cycle(nested)]
#[tactic(auto, unfolding(crate::specs::Private::Rules::side))]
pub(crate) fn side(reader: &mut Reader, levels: u32) -> Result<Box<Operand>, Stop>
    ensures { Gives boxed_operand result reader.new (read_inside levels rules.side reader.old) }
{
    let start = reader.place();
    let before = reader.components();
    let side = side_within(reader, levels)?;
    reader.add_component(start, before)?;
    Ok(side)
}

/// A query, a literal, or a function.
#[cycle(nested)]
#[tactic(auto, unfolding(crate::specs::Private::Rules::side_within))]
fn side_within(reader: &mut Reader, levels: u32) -> Result<Box<Operand>, Stop>
    ensures { Gives boxed_operand result reader.new (read_inside levels rules.side_within reader.old) }
{
    match reader.peek() {
        Some('$' | '@') => {
            let query = query_within(reader, levels)?;
            Ok(query_side(reader.alloc(), query)?)
        },
        Some('a'..='z') => word(reader, levels),
        _ => plain_side(reader),
    }
}

/// The side that is the query.
#[inline(never)]
fn query_side(alloc: Global, query: Query) -> Result<Box<Operand>, AllocError>
    ensures { IfOk result (λ b. boxed_operand b ≡ node_value (query_of query)) }
{
    boxed(alloc, Operand::Query(query))
}

/// A side that is a literal and no word.
#[inline(never)]
fn plain_side(reader: &mut Reader) -> Result<Box<Operand>, Stop>
    ensures { Gives
        boxed_operand
        result
        reader.new
        (outcome_map literal_operand (read_flat rules.plain_literal reader.old)) }
{
    let literal = plain_literal(reader)?;
    Ok(literal_side(reader.alloc(), literal)?)
}

/// The side that is the literal.
#[inline(never)]
fn literal_side(alloc: Global, literal: Literal) -> Result<Box<Operand>, AllocError>
    ensures { IfOk result (λ b. boxed_operand b ≡ literal_operand (literal_of literal)) }
{
    boxed(alloc, Operand::Literal(literal))
}

/// A query inside another.
#[cycle(nested)]
#[tactic(auto, unfolding(crate::specs::Private::Rules::query_within))]
pub(crate) fn query_within(reader: &mut Reader, levels: u32) -> Result<Query, Stop>
    ensures { Gives query_of result reader.new (read_inside levels rules.query_within reader.old) }
{
    let absolute = is_absolute(reader)?;
    let segments = segments(reader, levels)?;
    Ok(Query { absolute, segments })
}

/// The identifier of a query inside another: whether it is `$`, and not `@`.
#[tactic(auto, unfolding(crate::specs::Private::Rules::identifier))]
fn is_absolute(reader: &mut Reader) -> Result<bool, Stop>
    ensures { Gives (λ b. b) result reader.new (read_flat rules.identifier reader.old) }
{
    if reader.is_at('$') {
        reader.bump();
        return Ok(true);
    }
    reader.expect('@')?;
    Ok(false)
}

/// One of the words `true`, `false`, `null`, or a function.
#[cycle(nested)]
fn word(reader: &mut Reader, levels: u32) -> Result<Box<Operand>, Stop>
    ensures { Gives boxed_operand result reader.new (read_inside levels rules.word reader.old) }
{
    if reader.is_at('t') {
        return word_or_call(
            reader,
            levels,
            't',
            ['r', 'u', 'e'].as_slice(),
            Literal::True,
        );
    }
    if reader.is_at('f') {
        return word_or_call(
            reader,
            levels,
            'f',
            ['a', 'l', 's', 'e'].as_slice(),
            Literal::False,
        );
    }
    if reader.is_at('n') {
        return word_or_call(
            reader,
            levels,
            'n',
            ['u', 'l', 'l'].as_slice(),
            Literal::Null,
        );
    }
    if !is_at_function(reader) {
        return Err(Stop::Syntax(reader.place()));
    }
    let name = String::new(reader.alloc());
    called(reader, levels, name)
}

/// The word of these letters, or a function whose name begins like it.
#[cycle(nested)]
fn word_or_call(
    reader: &mut Reader,
    levels: u32,
    first: char,
    others: &[char],
    literal: Literal,
) -> Result<Box<Operand>, Stop>
    ensures { Gives
        boxed_operand
        result
        reader.new
        (read_inside
        levels
        (rules.word_of (literal_of literal) first others.now)
        reader.old) }
{
    reader.expect(first)?;
    let mut name = String::new(reader.alloc());
    append_char(&mut name, first)?;
    'letters: for letter in others {
        if is_before_name(reader, Some(*letter)) {
            return called(reader, levels, name);
        }
        reader.expect(*letter)?;
        append_char(&mut name, *letter)?;
    }
    if is_before_name(reader, None) {
        return called(reader, levels, name);
    }
    Ok(literal_side(reader.alloc(), literal)?)
}

/// A function, of whose name these characters were read.
#[cycle(nested)]
fn called(reader: &mut Reader, levels: u32, name: String) -> Result<Box<Operand>, Stop>
    ensures { Gives
        boxed_operand
        result
        reader.new
        (outcome_map
        call_value
        (outcome_map (rules.call_with (chars (string_bytes name))) (call_inside levels reader.old))) }
{
    let call = call_from(reader, levels, name)?;
    Ok(call_side(reader.alloc(), call)?)
}

/// The side that is the function expression.
#[inline(never)]
fn call_side(alloc: Global, call: Call) -> Result<Box<Operand>, AllocError>
    ensures { IfOk result (λ b. boxed_operand b ≡ call_value (call_of call)) }
{
    boxed(alloc, Operand::Call(call))
}

/// Whether a function's name goes on or ends here, and not with that character.
fn is_before_name(reader: &Reader, other: Option<char>) -> bool
    ensures { result ≡ passes (opens (rules.name_on other)) (head reader.now) }
{
    match reader.peek() {
        Some(next) => goes_on(next, other),
        None => false,
    }
}

/// What a side is that no operator follows: a literal, which has to be compared, or a test.
pub(crate) enum Uncompared {
    Literal(Box<Operand>),
    Test(Box<Expr>),
}

/// What the side is where no operator follows.
#[inline(never)]
pub(crate) fn uncompared_side(alloc: Global, side: Box<Operand>) -> Result<Uncompared, AllocError>
    ensures { IfOk result (λ u. uncompared_of u ≡ uncompared (boxed_operand side)) }
{
    match Box::into_inner(side) {
        Operand::Query(query) => Ok(Uncompared::Test(tested(alloc, Subject::Query(query))?)),
        Operand::Call(call) => Ok(Uncompared::Test(tested(alloc, Subject::Call(call))?)),
        Operand::Literal(literal) => Ok(Uncompared::Literal(literal_side(alloc, literal)?)),
    }
}
