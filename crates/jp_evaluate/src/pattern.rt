//! The patterns of `match` and `search` (RFC 9485).

ghost use Rattle.std.specs.Prelude.{◌≡◌, ◌↔◌, ◌≤◌, IfOk, IfSome, IsTrue, Some, option_map, vec_len};
ghost use Rattle.std.specs.List.{slice_get};
ghost use Rattle.std.specs.Str.{chars};
ghost use Rattle.jp_iregexp.specs.PatternOf.{pattern_of};
ghost use Rattle.jp_iregexp.specs.Tree.{tree};

use jp_iregexp::{PatternFault, read_pattern};
use jp_match::CountedPattern;
use std::alloc::{AllocError, Global};
use std::marker::Model;

/// How many texts are kept at most.
const MOST_KEPT: usize = 16;

/// How many bytes a text has at most that goes from one evaluation to the next.
const MOST_BYTES_HANDED_ON: usize = 1_024;

/// A text with the pattern that it spells, None where it does not conform.
#[derive(Drop)]
struct ReadText {
    text: String,
    pattern: Option<CountedPattern>,
}

impl Model for ReadText {
    ghost use Rattle.std.specs.Prelude.{ℕ, List, string_bytes};
    ghost use Rattle.jp_evaluate.specs.Private.ReadText.{IsReadInside};

    ghost Value = { List ℕ };

    ghost view = { λ r. string_bytes r.text };

    ghost invariant = { IsReadInside };
}

impl ReadText {
    ghost use Rattle.jp_evaluate.specs.Patterns.{is_short};

    /// Reads a text as a pattern, and keeps a copy of it. The only error is that memory ran out.
    fn new(alloc: Global, text: &str) -> Result<ReadText, AllocError>
        ensures { IfOk result (λ r. r ≡ text.now) }
    {
        let pattern = conforming(alloc, text)?;
        let text = String::from_str(alloc, text)?;
        Ok(ReadText { text, pattern })
    }

    /// Whether this is the text that was read. It stands apart: inlined into a loop, what comparing texts
    /// of each length takes is worked out ahead of it.
    #[inline(never)]
    fn is(&self, text: &str) -> bool
        ensures { IsTrue result ↔ (self.now ≡ text.now) }
    {
        self.text.as_str() == text
    }

    /// Whether it may go from one evaluation to the next.
    fn is_short(&self) -> bool
        ensures { result ≡ is_short self.now }
    {
        self.text.len() <= MOST_BYTES_HANDED_ON
    }

    /// The pattern that the text spells, None where it does not conform.
    fn pattern(&self) -> Option<&CountedPattern>
        ensures { pattern_of (chars self.now) ≡ option_map (λ p. tree p.now.pattern) result }
    {
        self.pattern.as_ref()
    }
}

/// The pattern that a text spells, None where it does not conform.
fn conforming(alloc: Global, text: &str) -> Result<Option<CountedPattern>, AllocError>
    ensures { IfOk result (λ o. pattern_of (chars text.now) ≡ option_map (λ p. tree p.pattern) o) }
{
    match read_pattern(alloc, text) {
        Ok(pattern) => Ok(Some(CountedPattern::new(pattern))),
        Err(PatternFault::NotConforming) => Ok(None),
        Err(PatternFault::NoMemory) => Err(AllocError),
    }
}

/// The texts that were read as patterns, each with what it spells; of 16 that are kept, the last
/// gives way to a new one. They go from one evaluation to the next by `lent_nodes_with` and
/// `LentNodes::into_parts`.
#[derive(Drop)]
pub struct Patterns {
    read: Vec<ReadText>,
    ghost few: { vec_len read ≤ 16 },
}

impl Patterns {
    ghost use Rattle.std.specs.Prelude.{[], filter};
    ghost use Rattle.jp_evaluate.specs.Patterns.{is_short, texts_in};

    /// No text was read yet. It takes no memory.
    pub fn new(alloc: Global) -> Patterns
        ensures { texts_in result ≡ [] }
    {
        Patterns {
            read: Vec::new(alloc),
        }
    }

    /// The pattern that a text spells, None where it does not conform. A text that is kept is not
    /// read again.
    pub(crate) fn of(
        &mut self,
        alloc: Global,
        text: &str,
    ) -> Result<Option<&CountedPattern>, AllocError>
        ensures { IfOk result (λ o. pattern_of (chars text.now)
            ≡ option_map (λ p. tree p.now.pattern) o) }
    {
        let position = match self.position(text) {
            Some(position) => position,
            None => self.read(alloc, text)?,
        };
        Ok(self.pattern(position))
    }

    /// Forgets long texts, so that little memory goes from one evaluation to the next.
    pub(crate) fn forget_long(&mut self)
        ensures { texts_in self.new ≡ filter is_short (texts_in self.old) }
    {
        self.read.retain(|read| read.is_short());
    }

    /// The position of a text that is kept.
    fn position(&self, text: &str) -> Option<usize>
        ensures { IfSome result (λ i. slice_get self.now.read.items i ≡ Some text.now) }
    {
        for (i, read) in self.read.iter().enumerate() {
            if read.is(text) {
                return Some(i);
            }
        }
        None
    }

    /// Reads a text and keeps it; answers its position. It stands apart, so that texts that are kept take no
    /// room for it.
    #[inline(never)]
    fn read(&mut self, alloc: Global, text: &str) -> Result<usize, AllocError>
        ensures { IfOk result (λ i. slice_get self.new.read.items i ≡ Some text.now) }
    {
        let read = ReadText::new(alloc, text)?;
        if self.read.len() >= MOST_KEPT {
            self.read.pop();
        }
        let position = self.read.len();
        self.read.push(read)?;
        Ok(position)
    }

    /// The pattern of the text at a position, None where it does not conform.
    fn pattern(&self, position: usize) -> Option<&CountedPattern>
        ensures { IfSome (slice_get self.now.read.items position)
            (λ text. pattern_of (chars text) ≡ option_map (λ p. tree p.now.pattern) result) }
    {
        self.read.get(position)?.pattern()
    }
}
