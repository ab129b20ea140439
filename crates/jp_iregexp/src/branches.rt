//! Patterns as texts: branches, pieces and atoms (RFC 9485 section 3).

ghost use Rattle.std.specs.Prelude.{◌≡◌, [], ◌∷◌, false, IfOk};
ghost use Rattle.jp_reading.specs.Views.{Gives};
ghost use Rattle.jp_iregexp.specs.Tree.{tree, class};
ghost use Rattle.jp_iregexp.specs.Grammar.{one, dot};
ghost use Rattle.jp_iregexp.specs.Private.Reading.{inside_at, branches_at, next_branch_at};
ghost use Rattle.jp_iregexp.specs.Private.Reading.{branch_at, piece_at, atom_at, group_at};
ghost use Rattle.jp_iregexp.specs.Private.Reading.{escape_at, pattern_at};

use crate::brackets::{category, class};
use crate::characters::{Characters, escaped};
use crate::class::{CharClass, ClassElement};
use crate::pattern::Pattern;
use crate::quantifiers::quantifier;
use jp_reading::{Reader, Stop};
use std::alloc::{AllocError, Global};

/// A whole pattern with at most so many groups inside one another: the text ends after it.
#[tactic(auto, unfolding(crate::specs::Private::Reading::pattern_at))]
pub(crate) fn pattern(reader: &mut Reader, groups: u32) -> Result<Pattern, Stop>
    ensures { Gives tree result reader.new (pattern_at groups reader.old) }
{
    let pattern = branches(reader, groups)?;
    match reader.peek() {
        Some(_) => Err(Stop::Syntax(reader.place())),
        None => Ok(pattern),
    }
}

/// Branches with `|` between them.
#[cycle(branches)]
#[tactic(auto, using(crate::proofs::Trees::tree_either), unfolding(crate::specs::Private::Reading::branches_at))]
fn branches(reader: &mut Reader, groups: u32) -> Result<Pattern, Stop>
    ensures { Gives tree result reader.new (branches_at (inside_at groups) reader.old) }
{
    let first = branch(reader, groups)?;
    let mut branches = Vec::new(reader.alloc());
    branches.push(first).map_err(AllocError::from)?;
    'branches: while reader.is_at('|') {
        let next = next_branch(reader, groups)?;
        branches.push(next).map_err(AllocError::from)?;
    }
    Ok(Pattern::Either(branches))
}

/// The branch after the `|` that stands next.
#[cycle(branches)]
#[tactic(auto, unfolding(crate::specs::Private::Reading::next_branch_at))]
fn next_branch(reader: &mut Reader, groups: u32) -> Result<Pattern, Stop>
    ensures { Gives tree result reader.new (next_branch_at (inside_at groups) reader.old) }
{
    reader.expect('|')?;
    branch(reader, groups)
}

/// A branch: piece after piece, or none.
#[cycle(branches)]
#[tactic(auto, using(crate::proofs::Trees::tree_sequence), unfolding(crate::specs::Private::Reading::branch_at))]
fn branch(reader: &mut Reader, groups: u32) -> Result<Pattern, Stop>
    ensures { Gives tree result reader.new (branch_at (inside_at groups) reader.old) }
{
    let mut pieces = Vec::new(reader.alloc());
    'pieces: while reader.is_at_one_of(Characters::Piece) {
        let next = piece(reader, groups)?;
        pieces.push(next).map_err(AllocError::from)?;
    }
    Ok(Pattern::Sequence(pieces))
}

/// A piece: an atom, with a quantifier after it a repeat.
#[cycle(branches)]
#[tactic(auto, using(crate::proofs::Trees::tree_repeat), unfolding(crate::specs::Private::Reading::piece_at))]
fn piece(reader: &mut Reader, groups: u32) -> Result<Pattern, Stop>
    ensures { Gives tree result reader.new (piece_at (inside_at groups) reader.old) }
{
    let inner = atom(reader, groups)?;
    if !reader.is_at_one_of(Characters::Quantifier) {
        return Ok(inner);
    }
    let count = quantifier(reader)?;
    let inner = Box::new(reader.alloc(), inner).map_err(AllocError::from)?;
    Ok(Pattern::Repeat {
        inner,
        least: count.least,
        most: count.most,
    })
}

/// An atom: a group, a class, a dot, a category or a character.
#[cycle(branches)]
#[tactic(auto, using(crate::proofs::Trees::tree_class), unfolding(crate::specs::Private::Reading::atom_at))]
fn atom(reader: &mut Reader, groups: u32) -> Result<Pattern, Stop>
    ensures { Gives tree result reader.new (atom_at (inside_at groups) reader.old) }
{
    match reader.peek() {
        Some('(') => group(reader, groups),
        Some('[') => Ok(Pattern::Class(class(reader)?)),
        Some('.') => {
            reader.bump();
            Ok(dot(reader.alloc())?)
        },
        Some('\\') => {
            reader.bump();
            escape(reader)
        },
        _ => {
            let c = reader.take_one_of(Characters::Normal)?;
            Ok(one(reader.alloc(), c)?)
        },
    }
}

/// A pattern in parentheses.
#[cycle(branches)]
#[tactic(auto, unfolding(crate::specs::Private::Reading::group_at, crate::specs::Private::Reading::inside_at))]
fn group(reader: &mut Reader, groups: u32) -> Result<Pattern, Stop>
    ensures { Gives tree result reader.new (group_at (inside_at groups) reader.old) }
{
    reader.expect('(')?;
    if groups == 0 {
        return Err(Stop::TooDeep(reader.place()));
    }
    let inside = branches(reader, groups - 1)?;
    reader.expect(')')?;
    Ok(inside)
}

/// What stands after `\` outside a class: a category or a character.
#[tactic(auto, unfolding(crate::specs::Private::Reading::escape_at))]
fn escape(reader: &mut Reader) -> Result<Pattern, Stop>
    ensures { Gives tree result reader.new (escape_at reader.old) }
{
    if reader.is_at_one_of(Characters::CategorySign) {
        let element = category(reader)?;
        return Ok(plain(reader.alloc(), element)?);
    }
    let c = escaped(reader)?;
    Ok(one(reader.alloc(), c)?)
}

/// The class of one character.
fn one(alloc: Global, c: char) -> Result<Pattern, AllocError>
    ensures { IfOk result (λ p. tree p ≡ one c) }
{
    plain(alloc, ClassElement::Range(c, c))
}

/// The class of one element.
#[tactic(auto, using(crate::proofs::Trees::tree_class))]
fn plain(alloc: Global, element: ClassElement) -> Result<Pattern, AllocError>
    ensures { IfOk result (λ p. tree p ≡ class false (element ∷ [])) }
{
    let mut elements = Vec::new(alloc);
    elements.push(element)?;
    Ok(Pattern::Class(CharClass {
        negated: false,
        elements,
    }))
}

/// All characters but line feed and carriage return.
#[tactic(auto, using(crate::proofs::Trees::tree_class))]
fn dot(alloc: Global) -> Result<Pattern, AllocError>
    ensures { IfOk result (λ p. tree p ≡ dot) }
{
    let mut elements = Vec::new(alloc);
    elements.push(ClassElement::Range('\n', '\n'))?;
    elements.push(ClassElement::Range('\r', '\r'))?;
    Ok(Pattern::Class(CharClass {
        negated: true,
        elements,
    }))
}
