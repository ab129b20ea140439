//! Patterns cut down to the length of a text.

ghost use Rattle.std.specs.Prelude.{◌≡◌, ◌≤◌, IfOk, IfSome, None, length, map};
ghost use Rattle.jp_iregexp.specs.Tree.{tree, repeat};
ghost use Rattle.jp_iregexp.specs.Language.{Language};
ghost use Rattle.jp_match.specs.Private.Cutting.{IsSameUpTo, AreSameUpTo, HasNoneUpTo};

use crate::empty_word::has_empty_word;
use jp_iregexp::{CharClass, Pattern};
use std::alloc::{AllocError, Global};

/// A pattern with the same words of at most so many characters. Counts that such words can't reach
/// are left out of it, so it may have far fewer positions.
#[cycle(cut)]
pub(crate) fn cut(alloc: Global, pattern: &Pattern, chars: usize) -> Result<Pattern, AllocError>
    ensures { IfOk result (λ cut. IsSameUpTo chars (Language (tree cut)) (Language (tree
        pattern.entry.now))) }
{
    match pattern {
        Pattern::Either(branches) => {
            let branches = cut_each(alloc, branches, chars)?;
            Ok(Pattern::Either(branches))
        }
        Pattern::Sequence(pieces) => {
            let pieces = cut_each(alloc, pieces, chars)?;
            Ok(Pattern::Sequence(pieces))
        }
        Pattern::Repeat { inner, least, most } => cut_repeat(alloc, inner, *least, *most, chars),
        Pattern::Class(class) => {
            let class = copy_of(alloc, class)?;
            Ok(Pattern::Class(class))
        }
    }
}

/// Each of the patterns, cut.
#[cycle(cut)]
fn cut_each(alloc: Global, parts: &[Pattern], chars: usize) -> Result<Vec<Pattern>, AllocError>
    ensures { IfOk result (λ cut. AreSameUpTo chars (map tree cut.items) (map tree
        parts.entry.now)) }
{
    let mut all = Vec::new(alloc);
    for part in parts {
        let part = cut(alloc, part, chars)?;
        all.push(part)?;
    }
    Ok(all)
}

/// A repeat, cut. Where it has no word of at most so many characters, no branch is left.
#[cycle(cut)]
fn cut_repeat(
    alloc: Global,
    inner: &Pattern,
    least: u32,
    most: Option<u32>,
    chars: usize,
) -> Result<Pattern, AllocError>
    ensures { IfOk result (λ cut. IsSameUpTo chars (Language (tree cut)) (Language (repeat (tree
        inner.entry.now) least most))) }
{
    let Some(within) = cut_counts(inner, least, most, chars) else {
        return Ok(Pattern::Either(Vec::new(alloc)));
    };
    let inner = cut(alloc, inner, chars)?;
    let inner = Box::new(alloc, inner)?;
    Ok(Pattern::Repeat {
        inner,
        least: within.least,
        most: within.most,
    })
}

/// How often a repeat may take its inner pattern.
#[derive(Clone, Copy)]
struct Within {
    least: u32,
    most: Option<u32>,
}

/// Counts that give a repeat the same words of at most so many characters; None where it has none.
/// Of more words than characters some are empty, so a most above the characters is no most.
fn cut_counts(inner: &Pattern, least: u32, most: Option<u32>, chars: usize) -> Option<Within>
    ensures same { IfSome result (λ within. IsSameUpTo chars (Language (repeat (tree inner.now)
        within.least within.most)) (Language (repeat (tree inner.now) least most))) }
    ensures none { result ≡ None → HasNoneUpTo chars (Language (repeat (tree inner.now) least
        most)) }
{
    let Some(most) = most else {
        return cut_least(inner, least, chars);
    };
    if most < least {
        return None;
    }
    if most as usize <= chars {
        return Some(Within {
            least,
            most: Some(most),
        });
    }
    cut_least(inner, least, chars)
}

/// The counts of a repeat without a most, for texts of at most so many characters: a least above
/// these is reached by empty words alone.
fn cut_least(inner: &Pattern, least: u32, chars: usize) -> Option<Within>
    ensures same { IfSome result (λ within. IsSameUpTo chars (Language (repeat (tree inner.now)
        within.least within.most)) (Language (repeat (tree inner.now) least None))) }
    ensures none { result ≡ None → HasNoneUpTo chars (Language (repeat (tree inner.now) least
        None)) }
{
    if least as usize <= chars {
        return Some(Within { least, most: None });
    }
    if !has_empty_word(inner) {
        return None;
    }
    Some(Within {
        least: 0,
        most: None,
    })
}

/// A copy of the class.
fn copy_of(alloc: Global, class: &CharClass) -> Result<CharClass, AllocError>
    ensures negated { IfOk result (λ copy. copy.negated ≡ class.entry.now.negated) }
    ensures elements { IfOk result (λ copy. copy.elements.items ≡ class.entry.now.elements.items) }
{
    let mut elements = Vec::new(alloc);
    elements.extend_from_slice(&class.elements)?;
    Ok(CharClass {
        negated: class.negated,
        elements,
    })
}
