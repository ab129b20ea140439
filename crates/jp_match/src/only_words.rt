//! Patterns that have few words, as `timeout|refused` has two.

ghost use Rattle.std.specs.Prelude.{◌≡◌, IfSome, map};
ghost use Rattle.std.specs.List.{list_any};
ghost use Rattle.std.specs.Str.{chars, bytes_eq};
ghost use Rattle.jp_iregexp.specs.Tree.{tree};
ghost use Rattle.jp_match.specs.Private.OnlyWords.{IsOnlyWord, AreOnlyWords, HasOnlyWords, is_part};
ghost use Rattle.jp_match.specs.Private.OnlyWords.{characters, alone};

use jp_iregexp::{ClassElement, Pattern};
use std::alloc::Global;
use std::marker::Model;

/// How many words are looked for at most, since each is looked for by itself.
const MOST_WORDS: usize = 16;

/// The only words of a pattern.
#[derive(Drop)]
pub(crate) struct OnlyWords {
    words: Vec<String>,
}

impl Model for OnlyWords {
    ghost use Rattle.std.specs.Prelude.{ℕ, List, map};
    ghost use Rattle.jp_match.specs.Private.OnlyWords.{characters};

    ghost Value = { List (List ℕ) };

    ghost view = { λ w. map characters w.words.items };
}

impl OnlyWords {
    /// The words of a pattern that has one for each branch; None for any other pattern, for one of
    /// more than 16 branches, and where memory ran out.
    pub(crate) fn of(pattern: &Pattern) -> Option<OnlyWords>
        ensures { IfSome result (λ words. HasOnlyWords (tree pattern.now) words) }
    {
        let Pattern::Either(branches) = pattern else {
            return None;
        };
        if branches.len() > MOST_WORDS {
            return None;
        }
        let alloc = *branches.allocator();
        let words = words_of(alloc, branches)?;
        Some(OnlyWords { words })
    }

    /// Whether the text is one of them.
    pub(crate) fn contain(&self, text: &str) -> bool
        ensures { result ≡ list_any (λ word. bytes_eq word (chars text.now)) self.now }
    {
        is_one_of(&self.words, text)
    }

    /// Whether one of them is a part of the text.
    pub(crate) fn occur_in(&self, text: &str) -> bool
        ensures { result ≡ list_any (λ word. is_part word (chars text.now)) self.now }
    {
        has_one_of(text, &self.words)
    }
}

/// Whether the text is one of the words.
fn is_one_of(words: &[String], text: &str) -> bool
    ensures { result ≡ list_any (λ word. bytes_eq (characters word) (chars text.now)) words.now }
{
    words.iter().any(|word| is_same(word.as_str(), text))
}

/// Whether the text is the word, byte for byte.
fn is_same(word: &str, text: &str) -> bool
    ensures { result ≡ bytes_eq (chars word.now) (chars text.now) }
{
    word == text
}

/// Whether one of the words is a part of the text.
fn has_one_of(text: &str, words: &[String]) -> bool
    ensures { result ≡ list_any (λ word. is_part (characters word) (chars text.now)) words.now }
{
    words.iter().any(|word| has_part(text, word.as_str()))
}

/// Whether the word is a part of the text, as the empty word is of each text.
fn has_part(text: &str, word: &str) -> bool
    ensures { result ≡ is_part (chars word.now) (chars text.now) }
{
    text.contains(word)
}

/// The only word of each branch; None where one has others, and where memory ran out.
fn words_of(alloc: Global, branches: &[Pattern]) -> Option<Vec<String>>
    ensures { IfSome result (λ words. AreOnlyWords (map tree branches.now) (map characters
        words.items)) }
{
    let mut words = Vec::new(alloc);
    for branch in branches {
        let word = word_of(alloc, branch)?;
        words.push(word).ok()?;
    }
    Some(words)
}

/// The only word of a branch: of pieces that are characters. None for any other branch, and where
/// memory ran out.
fn word_of(alloc: Global, branch: &Pattern) -> Option<String>
    ensures { IfSome result (λ word. IsOnlyWord (tree branch.now) (characters word)) }
{
    let Pattern::Sequence(pieces) = branch else {
        return None;
    };
    let mut word = String::new(alloc);
    for piece in pieces {
        let c = only_char(piece)?;
        word.push(c).ok()?;
    }
    Some(word)
}

/// The character that is the only word of a pattern; None for any pattern that is not a class of
/// that character alone.
pub(crate) fn only_char(pattern: &Pattern) -> Option<char>
    ensures { IfSome result (λ c. IsOnlyWord (tree pattern.now) (alone c)) }
{
    let Pattern::Class(class) = pattern else {
        return None;
    };
    if class.negated {
        return None;
    }
    let [only] = class.elements.as_slice() else {
        return None;
    };
    match *only {
        ClassElement::Range(first, last) if first == last => Some(first),
        _ => None,
    }
}
