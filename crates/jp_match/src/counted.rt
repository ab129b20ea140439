//! Patterns whose positions are counted once for many texts.

ghost use Rattle.std.specs.Prelude.{◌≡◌, ◌≤◌, ◌*◌, ◌-◌, ◌^◌, ℕ, Bool, List, IfSome, IsTrue, Some, min};
ghost use Rattle.std.specs.Option.{ForSome};
ghost use Rattle.std.specs.Str.{chars};
ghost use Rattle.jp_iregexp.specs.Tree.{tree};
ghost use Rattle.jp_iregexp.specs.Language.{Language};
ghost use Rattle.jp_iregexp.specs.Positions.{positions_of};
ghost use Rattle.jp_match.specs.Private.Plain.{unrolled};
ghost use Rattle.jp_match.specs.Private.Beginning.{AllBegin, RulesOut};
ghost use Rattle.jp_match.specs.Private.OneWidth.{HasOneWidth, has_width};
ghost use Rattle.jp_match.specs.Private.OnlyWords.{HasOnlyWords, characters};
ghost use Rattle.jp_match.specs.Private.Sweeps.{rounds_of};

use crate::counts::{Counts, counts_of};
use crate::effort::{steps_of_many, steps_of_scan};
use crate::first_chars::FirstChars;
use crate::one_width::width_of;
use crate::only_words::OnlyWords;
use crate::prefix::{begins_with, prefix_of};
use crate::scan::MOST_POSITIONS;
use jp_iregexp::Pattern;

/// A pattern of more positions has no table of first characters, since each position may have a class
/// that stands first.
const MOST_TABLED: u64 = 256;

/// A word of a pattern of more positions is not looked for at each character: many might begin one
/// that only fails late.
const MOST_SOUGHT: u64 = 64;

/// A pattern with its counts.
#[derive(Clone, Copy)]
pub(crate) struct Counted<'p> {
    pub(crate) pattern: &'p Pattern,
    pub(crate) counts: Counts,
    ghost positions: { counts.positions ≡ min (positions_of (tree pattern.now)) 4097 },
    ghost rounds: { counts.rounds ≡ min (rounds_of (unrolled (tree pattern.now))) (2 ^ 31) },
}

impl<'p> Counted<'p> {
    /// Counts the pattern.
    pub(crate) fn of(pattern: &'p Pattern) -> Counted<'p>
        ensures { result.pattern.now ≡ pattern.now }
    {
        let counts = counts_of(pattern);
        Counted { pattern, counts }
    }
}

/// A pattern whose positions were counted when it was made, so that a matcher need not count them
/// for each text. Where it has few words and no others, as `timeout|refused` has two, it keeps them,
/// so that a matcher looks for them as they are; of other patterns it keeps which characters no word
/// begins with, which characters all begin with, and whether all have one number of characters.
#[derive(Drop)]
pub struct CountedPattern {
    pub(crate) pattern: Pattern,
    counts: Counts,
    only_words: Option<OnlyWords>,
    first_chars: Option<FirstChars>,
    width: Option<u64>,
    prefix: Option<String>,
    steps_a_char: u64,
    ghost positions: { counts.positions ≡ min (positions_of (tree pattern)) 4097 },
    ghost rounds: { counts.rounds ≡ min (rounds_of (unrolled (tree pattern))) (2 ^ 31) },
    ghost spelled: { (words : List (List ℕ)) → only_words ≡ Some words → HasOnlyWords (tree pattern)
        words },
    ghost begins: { (table : List Bool) → first_chars ≡ Some table → RulesOut table (Language (tree
        pattern)) },
    ghost headed: { ForSome prefix (λ prefix. AllBegin (characters prefix) (Language (tree
        pattern))) },
    ghost moved: { counts.positions ≤ 64 * steps_a_char },
    ghost wide: { (each : ℕ) → width ≡ Some each → IsTrue (has_width (tree pattern) each) },
}

impl CountedPattern {
    /// Counts the positions of the pattern. Where there is no memory to keep its words, it is matched
    /// without them.
    pub fn new(pattern: Pattern) -> CountedPattern
        ensures { tree result.pattern ≡ tree pattern }
    {
        let counts = counts_of(&pattern);
        let steps_a_char = steps_of_scan(&pattern, counts.positions);
        let only_words = OnlyWords::of(&pattern);
        let first_chars = match only_words {
            None if counts.positions <= MOST_TABLED => Some(FirstChars::of(&pattern)),
            _ => None,
        };
        let width = match counts.positions <= MOST_POSITIONS {
            true => width_of(&pattern),
            false => None,
        };
        let prefix = match only_words {
            Some(_) => None,
            None => prefix_of(&pattern),
        };
        CountedPattern {
            pattern,
            counts,
            only_words,
            first_chars,
            width,
            prefix,
            steps_a_char,
        }
    }

    /// The pattern.
    pub fn pattern(&self) -> &Pattern
        ensures { tree result.now ≡ tree self.now.pattern }
    {
        &self.pattern
    }

    /// How many steps it takes at most to match a text of so many bytes: for each character one for each
    /// 64 positions whose marks are moved, and at least one; of a pattern of more than 4,096 positions,
    /// as many as its sets of offsets take.
    #[inline(always)]
    pub fn steps_over(&self, bytes: usize) -> u64
        ensures { positions_of (tree self.now.pattern) ≤ 4096
            → min (positions_of (tree self.now.pattern) * bytes) (2 ^ 64 - 1) ≤ 64 * result }
    {
        if self.counts.positions > MOST_POSITIONS {
            return steps_of_many(&self.pattern, bytes as u64);
        }
        (bytes as u64).saturating_mul(self.steps_a_char)
    }

    /// The pattern with its counts.
    pub(crate) fn counted(&self) -> Counted<'_>
        ensures { tree result.pattern.now ≡ tree self.now.pattern }
    {
        Counted {
            pattern: &self.pattern,
            counts: self.counts,
        }
    }

    /// The only words of the pattern, where it has some that are known.
    pub(crate) fn only_words(&self) -> Option<&OnlyWords>
        ensures { IfSome result (λ words. HasOnlyWords (tree self.now.pattern) words.now) }
    {
        self.only_words.as_ref()
    }

    /// The characters that no word of the pattern begins with, where they are known.
    pub(crate) fn first_chars(&self) -> Option<&FirstChars>
        ensures { IfSome result (λ first. RulesOut first.now (Language (tree self.now.pattern))) }
    {
        self.first_chars.as_ref()
    }

    /// Whether the text is no word of the pattern, as its first characters tell. Where the answer is
    /// false it may be none, too.
    #[inline(always)]
    pub(crate) fn refuses(&self, text: &str) -> bool
        ensures { IsTrue result → Language (tree self.now.pattern) (chars text.now) → ⊥ }
    {
        match &self.prefix {
            Some(prefix) => !begins_with(text, prefix.as_str()),
            None => false,
        }
    }

    /// Whether each word of the pattern has the same number of characters. Where the answer is false
    /// they may have, too.
    pub(crate) fn has_one_width(&self) -> bool
        ensures { IsTrue result → HasOneWidth (tree self.now.pattern) }
    {
        self.width.is_some()
    }

    /// Whether each word has the same number of characters, and the pattern has so few positions that
    /// a word is looked for at each character.
    pub(crate) fn is_sought(&self) -> bool
        ensures { IsTrue result → HasOneWidth (tree self.now.pattern) }
    {
        self.counts.positions <= MOST_SOUGHT && self.has_one_width()
    }
}
