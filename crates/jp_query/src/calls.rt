//! Function expressions and their arguments (RFC 9535 section 2.4).

ghost use Rattle.std.specs.Prelude.{◌≡◌, [], map, IfOk};
ghost use Rattle.std.specs.Str.{chars};
ghost use Rattle.std.specs.String.{string_bytes};
ghost use Rattle.jp_reading.specs.Outcome.{after_blank, passes};
ghost use Rattle.jp_reading.specs.Views.{Gives, outcome_map};
ghost use Rattle.jp_tree.specs.Views.{argument_of, call_of};
ghost use Rattle.jp_query.specs.Private.Rules as rules;
ghost use Rattle.jp_query.specs.Private.Rules.{is_logical};
ghost use Rattle.jp_query.specs.Private.Parts.{begins_part, boxed_argument, boxed_expr, boxed_operand};
ghost use Rattle.jp_query.specs.Private.Parts.{first_argument, logical_at, rest_of_call};
ghost use Rattle.jp_query.specs.Private.Reading.{call_inside, read_inside};

use crate::expressions::{Connective, comparison, joined_from, negation, parenthesis};
use crate::lists::{append_boxed, boxed};
use crate::names::{NameCharacter, name_from};
use crate::operators::is_before_operator;
use crate::sides::{Uncompared, side, uncompared_side};
use jp_reading::{Reader, Stop};
use jp_tree::{Argument, Call, Expr, FunctionName, Operand};
use std::alloc::{AllocError, Global};

/// A function expression.
#[cycle(nested)]
pub(crate) fn call(reader: &mut Reader, levels: u32) -> Result<Call, Stop>
    ensures { Gives
        call_of
        result
        reader.new
        (outcome_map (rules.call_with []) (call_inside levels reader.old)) }
{
    let name = String::new(reader.alloc());
    call_from(reader, levels, name)
}

/// A function expression, of whose name these characters were read.
#[cycle(nested)]
pub(crate) fn call_from(reader: &mut Reader, levels: u32, name: String) -> Result<Call, Stop>
    ensures { Gives
        call_of
        result
        reader.new
        (outcome_map (rules.call_with (chars (string_bytes name))) (call_inside levels reader.old)) }
{
    if levels == 0 {
        return Err(Stop::TooDeep(reader.place()));
    }
    rest_of_call(reader, levels - 1, name)
}

/// The rest of a function's name, and its arguments in parentheses.
#[cycle(nested)]
fn rest_of_call(reader: &mut Reader, levels: u32, name: String) -> Result<Call, Stop>
    ensures { Gives
        call_of
        result
        reader.new
        (rest_of_call levels (chars (string_bytes name)) reader.old) }
{
    let name = name_from(reader, NameCharacter::Function, name)?;
    reader.expect('(')?;
    let arguments = arguments(reader, levels)?;
    let name = FunctionName::new(name);
    Ok(Call { name, arguments })
}

/// The arguments of a function after its opening parenthesis, with the closing one.
#[cycle(nested)]
#[tactic(auto, unfolding(crate::specs::Private::Rules::after_parenthesis))]
fn arguments(reader: &mut Reader, levels: u32) -> Result<Vec<Argument>, Stop>
    ensures { Gives
        (λ v. map argument_of v.items)
        result
        reader.new
        (read_inside levels rules.after_parenthesis reader.old) }
{
    reader.skip();
    if reader.is_at(')') {
        reader.bump();
        return Ok(Vec::new(reader.alloc()));
    }
    some_arguments(reader, levels)
}

/// Arguments with commas between them, and the closing parenthesis.
#[cycle(nested)]
#[tactic(auto, unfolding(crate::specs::Private::Rules::some_arguments))]
fn some_arguments(reader: &mut Reader, levels: u32) -> Result<Vec<Argument>, Stop>
    ensures { Gives
        (λ v. map argument_of v.items)
        result
        reader.new
        (read_inside levels rules.some_arguments reader.old) }
{
    let mut arguments = Vec::new(reader.alloc());
    let first = argument(reader, levels)?;
    append_boxed(&mut arguments, first)?;
    'arguments: while reader.is_before(',') {
        let next = next_argument(reader, levels)?;
        append_boxed(&mut arguments, next)?;
    }
    reader.skip();
    reader.expect(')')?;
    Ok(arguments)
}

/// An argument after a comma.
#[cycle(nested)]
#[tactic(auto, unfolding(crate::specs::Private::Rules::next_argument))]
fn next_argument(reader: &mut Reader, levels: u32) -> Result<Box<Argument>, Stop>
    ensures { Gives
        boxed_argument
        result
        reader.new
        (read_inside levels rules.next_argument reader.old) }
{
    reader.skip();
    reader.expect(',')?;
    reader.skip();
    argument(reader, levels)
}

/// An argument, which is a component of its own where it is a logical expression.
#[cycle(nested)]
#[tactic(auto, unfolding(crate::specs::Private::Rules::argument))]
fn argument(reader: &mut Reader, levels: u32) -> Result<Box<Argument>, Stop>
    ensures { Gives boxed_argument result reader.new (read_inside levels rules.argument reader.old) }
{
    let start = reader.place();
    let before = reader.components();
    let first = argument_start(reader, levels)?;
    let argument = argument_from(reader, levels, first)?;
    if !is_logical(&argument) {
        return Ok(argument);
    }
    reader.add_component(start, before)?;
    Ok(argument)
}

/// Whether an argument is a logical expression.
fn is_logical(argument: &Argument) -> bool
    ensures { result ≡ is_logical (argument_of argument.now) }
{
    match argument {
        Argument::Literal(_) => false,
        Argument::Query(_) => false,
        Argument::Call(_) => false,
        Argument::Logical(_) => true,
    }
}

/// The first part of an argument.
enum FirstPart {
    Side(Box<Operand>),
    Logical(Box<Expr>),
}

/// The first part of an argument: a basic expression, or a literal.
#[cycle(nested)]
#[tactic(auto, unfolding(crate::specs::Private::Rules::argument_start))]
fn argument_start(reader: &mut Reader, levels: u32) -> Result<FirstPart, Stop>
    ensures { Gives
        first_argument
        result
        reader.new
        (read_inside levels rules.argument_start reader.old) }
{
    match reader.peek() {
        Some('!') => {
            reader.bump();
            Ok(FirstPart::Logical(negation(reader, levels)?))
        },
        Some('(') => Ok(FirstPart::Logical(parenthesis(reader, levels)?)),
        _ => {
            let first = side(reader, levels)?;
            compared_or_alone(reader, levels, first)
        },
    }
}

/// What goes on from the first side of an argument: a comparison, or nothing.
#[cycle(nested)]
fn compared_or_alone(
    reader: &mut Reader,
    levels: u32,
    first: Box<Operand>,
) -> Result<FirstPart, Stop>
    ensures { Gives
        first_argument
        result
        reader.new
        (read_inside levels (rules.compared_or_alone (boxed_operand first)) reader.old) }
{
    if is_before_operator(reader) {
        reader.skip();
        return Ok(FirstPart::Logical(comparison(reader, levels, first)?));
    }
    Ok(FirstPart::Side(first))
}

/// An argument from its first part on: a literal is no part of a logical expression.
#[cycle(nested)]
fn argument_from(reader: &mut Reader, levels: u32, first: FirstPart) -> Result<Box<Argument>, Stop>
    ensures { Gives
        boxed_argument
        result
        reader.new
        (read_inside levels (rules.argument_on (first_argument first)) reader.old) }
{
    if !is_before_part(reader) {
        return Ok(alone(reader.alloc(), first)?);
    }
    match first {
        FirstPart::Side(side) => match uncompared_side(reader.alloc(), side)? {
            Uncompared::Literal(literal) => Ok(alone(reader.alloc(), FirstPart::Side(literal))?),
            Uncompared::Test(test) => logical(reader, levels, test),
        },
        FirstPart::Logical(expr) => logical(reader, levels, expr),
    }
}

/// The argument of one part.
#[inline(never)]
fn alone(alloc: Global, part: FirstPart) -> Result<Box<Argument>, AllocError>
    ensures { IfOk result (λ b. boxed_argument b ≡ first_argument part) }
{
    match part {
        FirstPart::Side(side) => uncompared_argument(alloc, side),
        FirstPart::Logical(expr) => boxed(alloc, Argument::Logical(Box::into_inner(expr))),
    }
}

/// The argument that the side is.
fn uncompared_argument(alloc: Global, side: Box<Operand>) -> Result<Box<Argument>, AllocError>
    ensures { IfOk result (λ b. boxed_argument b ≡ rules.argument_alone (boxed_operand side)) }
{
    match Box::into_inner(side) {
        Operand::Literal(literal) => boxed(alloc, Argument::Literal(literal)),
        Operand::Query(query) => boxed(alloc, Argument::Query(query)),
        Operand::Call(call) => boxed(alloc, Argument::Call(call)),
    }
}

/// Whether another part of a logical expression comes past the blanks.
fn is_before_part(reader: &Reader) -> bool
    ensures { result ≡ passes begins_part (after_blank reader.now) }
{
    matches!(reader.peek_past_blank(), Some('&' | '|'))
}

/// A logical expression from its first part on.
#[cycle(nested)]
fn logical(reader: &mut Reader, levels: u32, first: Box<Expr>) -> Result<Box<Argument>, Stop>
    ensures { Gives
        boxed_argument
        result
        reader.new
        (logical_at levels (boxed_expr first) reader.old) }
{
    let conjunction = joined_from(reader, levels, Connective::And, first)?;
    let expression = joined_from(reader, levels, Connective::Or, conjunction)?;
    Ok(alone(reader.alloc(), FirstPart::Logical(expression))?)
}
