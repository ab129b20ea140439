//! Logical expressions of filters (RFC 9535 section 2.3.5.1).

ghost use Rattle.std.specs.Prelude.{◌≡◌, map, IfOk};
ghost use Rattle.jp_reading.specs.Outcome.{after_blank, is, passes};
ghost use Rattle.jp_reading.specs.Views.{Gives};
ghost use Rattle.jp_tree.specs.Tree.{comparison, exprs, negation};
ghost use Rattle.jp_tree.specs.Views.{expr_of, subject_of};
ghost use Rattle.jp_query.specs.Private.Parts.{boxed_expr, boxed_operand, joined_at, character_of};
ghost use Rattle.jp_query.specs.Private.Parts.{part_of, several};
ghost use Rattle.jp_query.specs.Private.Rules as rules;
ghost use Rattle.jp_query.specs.Private.Reading.{filter_at, inside, parenthesis_at, read_flat, read_inside};

use crate::calls::call;
use crate::lists::{append_boxed, boxed};
use crate::names::is_at_function;
use crate::operators::{is_before_operator, operator};
use crate::segments::end;
use crate::sides::{Uncompared, query_within, side, uncompared_side};
use jp_reading::{Reader, Stop};
use jp_tree::{Expr, Op, Operand, Subject};
use std::alloc::{AllocError, Global};

/// The whole text of a filter's expression, with blank space around it.
#[tactic(auto, unfolding(crate::specs::Private::Reading::filter_at, crate::specs::Private::Rules::filter_text))]
pub(crate) fn filter(reader: &mut Reader, levels: u32) -> Result<Box<Expr>, Stop>
    ensures { Gives boxed_expr result reader.new (filter_at levels reader.old) }
{
    reader.skip();
    let expr = expression(reader, levels)?;
    reader.skip();
    end(reader)?;
    Ok(expr)
}

/// An expression after the character that opens it, one level further in than the text around.
#[cycle(nested)]
#[tactic(auto, unfolding(crate::specs::Private::Rules::inside_expression))]
pub(crate) fn inside(reader: &mut Reader, opening: char, levels: u32) -> Result<Box<Expr>, Stop>
    ensures { Gives boxed_expr result reader.new (inside levels (rules.expression_after opening) reader.old) }
{
    if levels == 0 {
        return Err(Stop::TooDeep(reader.place()));
    }
    reader.expect(opening)?;
    reader.skip();
    expression(reader, levels - 1)
}

/// What joins the parts of an expression: `||` joins conjunctions, `&&` basic expressions.
#[derive(Clone, Copy)]
pub(crate) enum Connective {
    Or,
    And,
}

impl Connective {
    /// The character that stands twice between two parts.
    fn character(self) -> char
        ensures { result ≡ character_of self }
    {
        match self {
            Connective::Or => '|',
            Connective::And => '&',
        }
    }

    /// The expression of several parts.
    fn join(self, parts: Vec<Expr>) -> Expr
        ensures { expr_of result ≡ several self (exprs (map expr_of parts.items)) }
    {
        match self {
            Connective::Or => Expr::AnyOf(parts),
            Connective::And => Expr::AllOf(parts),
        }
    }
}

/// Conjunctions with `||` between them; a single one stands for itself.
#[cycle(nested)]
#[tactic(auto, unfolding(crate::specs::Private::Rules::expression))]
fn expression(reader: &mut Reader, levels: u32) -> Result<Box<Expr>, Stop>
    ensures { Gives boxed_expr result reader.new (read_inside levels rules.expression reader.old) }
{
    let first = conjunction(reader, levels)?;
    joined_from(reader, levels, Connective::Or, first)
}

/// Basic expressions with `&&` between them; a single one stands for itself.
#[cycle(nested)]
#[tactic(auto, unfolding(crate::specs::Private::Rules::conjunction))]
fn conjunction(reader: &mut Reader, levels: u32) -> Result<Box<Expr>, Stop>
    ensures { Gives boxed_expr result reader.new (read_inside levels rules.conjunction reader.old) }
{
    let first = basic(reader, levels)?;
    joined_from(reader, levels, Connective::And, first)
}

/// A part and those after it, each after the connective; a single one stands for itself.
#[cycle(nested)]
pub(crate) fn joined_from(
    reader: &mut Reader,
    levels: u32,
    connective: Connective,
    first: Box<Expr>,
) -> Result<Box<Expr>, Stop>
    ensures { Gives
        boxed_expr
        result
        reader.new
        (joined_at connective levels (boxed_expr first) reader.old) }
{
    if !is_before_joint(reader, connective) {
        return Ok(first);
    }
    let mut parts = Vec::new(reader.alloc());
    append_boxed(&mut parts, first)?;
    'parts: while is_before_joint(reader, connective) {
        joint(reader, connective)?;
        let next = part(reader, levels, connective)?;
        append_boxed(&mut parts, next)?;
    }
    Ok(joined(reader.alloc(), connective, parts)?)
}

/// The expression of several parts.
#[inline(never)]
fn joined(alloc: Global, connective: Connective, parts: Vec<Expr>) -> Result<Box<Expr>, AllocError>
    ensures { IfOk
        result
        (λ b. boxed_expr b ≡ several connective (exprs (map expr_of parts.items))) }
{
    boxed(alloc, connective.join(parts))
}

/// A part that the connective joins to others.
#[cycle(nested)]
fn part(reader: &mut Reader, levels: u32, connective: Connective) -> Result<Box<Expr>, Stop>
    ensures { Gives boxed_expr result reader.new (read_inside levels (part_of connective) reader.old) }
{
    match connective {
        Connective::Or => conjunction(reader, levels),
        Connective::And => basic(reader, levels),
    }
}

/// Whether the connective's character comes past the blanks.
fn is_before_joint(reader: &Reader, connective: Connective) -> bool
    ensures { result ≡ passes (is (character_of connective)) (after_blank reader.now) }
{
    reader.is_before(connective.character())
}

/// The connective's character twice, with blanks before and after it.
#[tactic(auto, unfolding(crate::specs::Private::Rules::joint))]
fn joint(reader: &mut Reader, connective: Connective) -> Result<(), Stop>
    ensures { Gives
        (λ _. character_of connective)
        result
        reader.new
        (read_flat (rules.joint (character_of connective)) reader.old) }
{
    let character = connective.character();
    reader.skip();
    reader.expect(character)?;
    reader.expect(character)?;
    reader.skip();
    Ok(())
}

/// A basic expression: a negation, an expression in parentheses, a comparison, or a test.
#[cycle(nested)]
#[tactic(auto, unfolding(crate::specs::Private::Rules::basic))]
fn basic(reader: &mut Reader, levels: u32) -> Result<Box<Expr>, Stop>
    ensures { Gives boxed_expr result reader.new (read_inside levels rules.basic reader.old) }
{
    match reader.peek() {
        Some('!') => {
            reader.bump();
            negation(reader, levels)
        },
        Some('(') => parenthesis(reader, levels),
        _ => {
            let first = side(reader, levels)?;
            compared_or_test(reader, levels, first)
        },
    }
}

/// A negation after its `!`.
#[cycle(nested)]
#[tactic(auto, unfolding(crate::specs::Private::Rules::negation_on))]
pub(crate) fn negation(reader: &mut Reader, levels: u32) -> Result<Box<Expr>, Stop>
    ensures { Gives boxed_expr result reader.new (read_inside levels rules.negation_on reader.old) }
{
    reader.skip();
    let part = negated(reader, levels)?;
    Ok(opposite(reader.alloc(), part)?)
}

/// The expression that is true where the part is not.
#[inline(never)]
fn opposite(alloc: Global, part: Box<Expr>) -> Result<Box<Expr>, AllocError>
    ensures { IfOk result (λ b. boxed_expr b ≡ negation (boxed_expr part)) }
{
    boxed(alloc, Expr::Not(part))
}

/// What stands after a `!`: an expression in parentheses, or a test.
#[cycle(nested)]
#[tactic(auto, unfolding(crate::specs::Private::Rules::negated))]
fn negated(reader: &mut Reader, levels: u32) -> Result<Box<Expr>, Stop>
    ensures { Gives boxed_expr result reader.new (read_inside levels rules.negated reader.old) }
{
    if reader.is_at('(') {
        return parenthesis(reader, levels);
    }
    test(reader, levels)
}

/// A test, which is a component: a function, or a query.
#[cycle(nested)]
#[tactic(auto, unfolding(crate::specs::Private::Rules::test_expr))]
fn test(reader: &mut Reader, levels: u32) -> Result<Box<Expr>, Stop>
    ensures { Gives boxed_expr result reader.new (read_inside levels rules.test_expr reader.old) }
{
    let start = reader.place();
    let before = reader.components();
    let subject = subject(reader, levels)?;
    reader.add_component(start, before)?;
    Ok(tested(reader.alloc(), subject)?)
}

/// The test of the subject.
#[inline(never)]
pub(crate) fn tested(alloc: Global, subject: Subject) -> Result<Box<Expr>, AllocError>
    ensures { IfOk result (λ b. boxed_expr b ≡ subject_of subject) }
{
    boxed(alloc, Expr::Test(subject))
}

/// What a test asks for: a function, or a query.
#[cycle(nested)]
fn subject(reader: &mut Reader, levels: u32) -> Result<Subject, Stop>
    ensures { Gives subject_of result reader.new (read_inside levels rules.subject reader.old) }
{
    if is_at_function(reader) {
        return Ok(Subject::Call(call(reader, levels)?));
    }
    Ok(Subject::Query(query_within(reader, levels)?))
}

/// An expression in parentheses.
#[cycle(nested)]
#[tactic(auto, unfolding(crate::specs::Private::Rules::closed))]
pub(crate) fn parenthesis(reader: &mut Reader, levels: u32) -> Result<Box<Expr>, Stop>
    ensures { Gives boxed_expr result reader.new (parenthesis_at levels reader.old) }
{
    let expr = inside(reader, '(', levels)?;
    reader.skip();
    reader.expect(')')?;
    Ok(expr)
}

/// What goes on from the first side: a literal has to be compared, all else may be a test.
#[cycle(nested)]
fn compared_or_test(
    reader: &mut Reader,
    levels: u32,
    first: Box<Operand>,
) -> Result<Box<Expr>, Stop>
    ensures { Gives
        boxed_expr
        result
        reader.new
        (read_inside levels (rules.compared_or_test (boxed_operand first)) reader.old) }
{
    if is_before_operator(reader) {
        reader.skip();
        return comparison(reader, levels, first);
    }
    match uncompared_side(reader.alloc(), first)? {
        Uncompared::Test(test) => Ok(test),
        Uncompared::Literal(literal) => {
            reader.skip();
            comparison(reader, levels, literal)
        },
    }
}

/// An operator and the second side of a comparison, after the first.
#[cycle(nested)]
#[tactic(auto, unfolding(crate::specs::Private::Rules::comparison_with))]
pub(crate) fn comparison(
    reader: &mut Reader,
    levels: u32,
    left: Box<Operand>,
) -> Result<Box<Expr>, Stop>
    ensures { Gives
        boxed_expr
        result
        reader.new
        (read_inside levels (rules.comparison_with (boxed_operand left)) reader.old) }
{
    let op = operator(reader)?;
    reader.skip();
    let right = side(reader, levels)?;
    Ok(compared(reader.alloc(), left, op, right)?)
}

/// The comparison of two sides.
#[inline(never)]
fn compared(
    alloc: Global,
    left: Box<Operand>,
    op: Op,
    right: Box<Operand>,
) -> Result<Box<Expr>, AllocError>
    ensures { IfOk
        result
        (λ b. boxed_expr b ≡ comparison (boxed_operand left) op (boxed_operand right)) }
{
    let left = Box::into_inner(left);
    let right = Box::into_inner(right);
    boxed(alloc, Expr::Compare { left, op, right })
}
