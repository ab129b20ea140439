//! Both matchers beside each other, on made patterns.

use super::answers_counted;
use jp_iregexp::read_pattern;
use jp_match::{Images, Matching, Tests};
use std::alloc::{AllocError, Global};
use std::test::Fail;

/// A number below the end, from a sequence that the seed begins.
fn below(seed: &mut u64, end: u64) -> u64 {
    *seed = seed
        .wrapping_mul(6_364_136_223_846_793_005)
        .wrapping_add(1_442_695_040_888_963_407);
    if end == 0 { 0 } else { (*seed >> 33) % end }
}

const ATOMS: [&str; 6] = ["a", "b", "[ab]", ".", "()", "[^a]"];

const QUANTIFIERS: [&str; 8] = ["", "*", "+", "?", "{2}", "{0}", "{1,3}", "{2,}"];

fn one_of<'a>(seed: &mut u64, texts: &'a [&'a str]) -> &'a str {
    let index = below(seed, texts.len() as u64) as usize;
    texts.get(index).copied().unwrap_or("")
}

/// A pattern of some atoms, grouped and repeated.
fn made_pattern(alloc: Global, seed: &mut u64) -> Result<String, AllocError> {
    let mut pattern = String::new(alloc);
    for _ in 0..below(seed, 7) {
        pattern = with_atom(alloc, seed, &pattern)?;
    }
    Ok(pattern)
}

/// A pattern and an atom, one of them repeated.
fn with_atom(alloc: Global, seed: &mut u64, pattern: &str) -> Result<String, AllocError> {
    let atom = one_of(seed, &ATOMS);
    let quantifier = one_of(seed, &QUANTIFIERS);
    match below(seed, 4) {
        0 => format!(in alloc; "({pattern}|{atom}){quantifier}"),
        1 => format!(in alloc; "({pattern}){quantifier}{atom}"),
        2 => format!(in alloc; "{atom}{quantifier}{pattern}"),
        _ => format!(in alloc; "{pattern}|{atom}{quantifier}"),
    }
}

/// A text of fewer characters than so many.
fn made_text(alloc: Global, seed: &mut u64, end: u64) -> Result<String, AllocError> {
    let mut text = String::new(alloc);
    for _ in 0..below(seed, end) {
        text.push_str(one_of(seed, &["a", "b", "c"]))?;
    }
    Ok(text)
}

/// What the matcher by images, which has no bound, answers for the text of a pattern.
fn answers_by_images(alloc: Global, pattern: &str, word: &str) -> Result<(bool, bool), Fail> {
    let pattern = read_pattern(alloc, pattern)?;
    let mut tests = Tests::new();
    let whole = Images.whole(alloc, &pattern, word, &mut tests)?;
    let part = Images.part(alloc, &pattern, word, &mut tests)?;
    Ok((whole, part))
}

/// Whether both matchers answer the same for a pattern and a text.
fn agree(alloc: Global, pattern: &str, word: &str) -> Result<bool, Fail> {
    let answer = answers_counted(alloc, pattern, word)?;
    // On a text without x each group has the same words, and too many positions for a scan.
    let large = pattern.replace(alloc, "(", "(x{5000}|")?;
    Ok(
        answer == Some(answers_by_images(alloc, pattern, word)?)
            && answer == Some(answers_by_images(alloc, &large, word)?),
    )
}

#[test]
fn both_matchers_agree(rt: HostRuntime) -> Result<(), Fail> {
    let mut seed = 1;
    for _ in 0..3_000 {
        let pattern = made_pattern(rt.alloc(), &mut seed)?;
        let word = made_text(rt.alloc(), &mut seed, 8)?;
        assert!(rt; agree(rt.alloc(), &pattern, &word)?, "{pattern} {word}");
    }
    Ok(())
}

const NESTS: [(&str, &str); 8] = [
    ("(", "|b)*c"),
    ("(", "b?)*"),
    ("(a|", "b)+"),
    ("(b?", ")*"),
    ("(", "|(a))+"),
    ("(", "a{2}|b)*"),
    ("(a?", "|c)+"),
    ("(", "){1,2}"),
];

/// A pattern of so many groups inside one another.
fn nested_pattern(alloc: Global, seed: &mut u64, depth: u64) -> Result<String, AllocError> {
    let mut pattern = String::new(alloc);
    pattern.push_str(one_of(seed, &ATOMS))?;
    let mut nests = 7;
    for level in 0..depth {
        // The last nest doubles the positions.
        if depth.saturating_sub(level) <= 6 {
            nests = 8;
        }
        let index = below(seed, nests) as usize;
        let (before, after) = NESTS.get(index).copied().unwrap_or(("", ""));
        pattern = format!(in alloc; "{before}{pattern}{after}")?;
    }
    Ok(pattern)
}

#[test]
fn both_matchers_agree_on_nested_patterns(rt: HostRuntime) -> Result<(), Fail> {
    let mut seed = 2;
    for _ in 0..500 {
        let depth = below(&mut seed, 44).saturating_add(20);
        let pattern = nested_pattern(rt.alloc(), &mut seed, depth)?;
        let word = made_text(rt.alloc(), &mut seed, 4)?;
        assert!(rt; agree(rt.alloc(), &pattern, &word)?, "{pattern} {word}");
    }
    Ok(())
}

/// A pattern of some words of fewer than three characters.
fn words_pattern(alloc: Global, seed: &mut u64) -> Result<String, AllocError> {
    let mut pattern = made_text(alloc, seed, 3)?;
    for _ in 0..below(seed, 4) {
        let word = made_text(alloc, seed, 3)?;
        pattern = format!(in alloc; "{pattern}|{word}")?;
    }
    Ok(pattern)
}

#[test]
fn both_matchers_agree_on_words(rt: HostRuntime) -> Result<(), Fail> {
    let mut seed = 4;
    for _ in 0..1_000 {
        let pattern = words_pattern(rt.alloc(), &mut seed)?;
        let word = made_text(rt.alloc(), &mut seed, 6)?;
        assert!(rt; agree(rt.alloc(), &pattern, &word)?, "{pattern} {word}");
    }
    Ok(())
}

const CLASSES: [&str; 6] = ["a", "b", "[ab]", "(a?)", "(b?)", "(([ab])?)"];

/// A pattern of some counted classes, one after another.
fn counted_pattern(alloc: Global, seed: &mut u64) -> Result<String, AllocError> {
    let mut pattern = String::new(alloc);
    for _ in 0..below(seed, 5) {
        let class = one_of(seed, &CLASSES);
        let least = below(seed, 4);
        let most = least.saturating_add(below(seed, 3));
        pattern = format!(in alloc; "{pattern}{class}{{{least},{most}}}")?;
    }
    Ok(pattern)
}

#[test]
fn both_matchers_agree_on_counted_classes(rt: HostRuntime) -> Result<(), Fail> {
    let mut seed = 3;
    for _ in 0..1_000 {
        let pattern = counted_pattern(rt.alloc(), &mut seed)?;
        let word = made_text(rt.alloc(), &mut seed, 12)?;
        assert!(rt; agree(rt.alloc(), &pattern, &word)?, "{pattern} {word}");
    }
    Ok(())
}
