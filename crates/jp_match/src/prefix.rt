//! The characters that each word of a pattern begins with, as those of `2026-..` begin with a year.

ghost use Rattle.std.specs.Prelude.{◌≡◌, IfSome};
ghost use Rattle.std.specs.Str.{chars};
ghost use Rattle.jp_iregexp.specs.Tree.{tree};
ghost use Rattle.jp_iregexp.specs.Language.{Language};
ghost use Rattle.jp_match.specs.Private.Beginning.{AllBegin};
ghost use Rattle.jp_match.specs.Private.OnlyWords.{characters, is_prefix};

use crate::only_words::only_char;
use jp_iregexp::Pattern;
use std::alloc::Global;

/// Fewer bytes are not compared: the first class tells as much.
const FEWEST_BYTES: usize = 2;

/// What each word of the pattern begins with, where it has one branch: the pieces at its front that
/// are one character each. None where they spell fewer than two bytes, for any other pattern, and
/// where memory ran out.
pub(crate) fn prefix_of(pattern: &Pattern) -> Option<String>
    ensures { IfSome result (λ prefix. AllBegin (characters prefix) (Language (tree pattern.now))) }
{
    let Pattern::Either(branches) = pattern else {
        return None;
    };
    let [only] = branches.as_slice() else {
        return None;
    };
    let prefix = prefix_of_branch(*branches.allocator(), only)?;
    if prefix.len() < FEWEST_BYTES {
        return None;
    }
    Some(prefix)
}

/// What each word of the branch begins with.
fn prefix_of_branch(alloc: Global, branch: &Pattern) -> Option<String>
    ensures { IfSome result (λ prefix. AllBegin (characters prefix) (Language (tree branch.now))) }
{
    let Pattern::Sequence(pieces) = branch else {
        return None;
    };
    let mut prefix = String::new(alloc);
    for piece in pieces {
        let Some(c) = only_char(piece) else {
            return Some(prefix);
        };
        prefix.push(c).ok()?;
    }
    Some(prefix)
}

/// Whether the text begins with the prefix.
#[inline(always)]
pub(crate) fn begins_with(text: &str, prefix: &str) -> bool
    ensures { result ≡ is_prefix (chars prefix.now) (chars text.now) }
{
    text.starts_with(prefix)
}
