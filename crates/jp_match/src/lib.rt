//! Matchers: whether a text, or a part of it, is in the language of a pattern (RFC 9485).
//!
//! A layer above takes a matcher by the bound [`Matching`], whose two answers are language
//! membership, and counts class tests in a [`Tests`]. [`Marks`] is that matcher: it steps a
//! [`Scan`] over the text, a character at a time. [`Images`] answers the same from sets of offsets,
//! for patterns of more positions than a scan takes.
//!
//! ```text
//! let pattern = read_pattern(alloc, "a{2,3}")?;
//! let mut tests = Tests::new();
//! Marks.whole(alloc, &pattern, "aaaa", &mut tests)?; // false
//! Marks.part(alloc, &pattern, "aaaa", &mut tests)?; // true
//! ```
#![tactic(auto)]

mod beginning;
mod class_tests;
mod copies;
mod counted;
mod counts;
mod cutting;
mod effort;
mod empty_word;
mod first_chars;
mod idle;
mod images;
mod marking;
mod marks;
mod matching;
mod offsets;
mod one_class;
mod one_width;
mod only_words;
mod passing;
mod prefix;
mod relations;
mod rows;
mod scan;
mod search;
mod stepping;
mod sweep;
mod whole;
mod word;

pub use class_tests::Tests;
pub use counted::CountedPattern;
pub use images::Images;
pub use marks::Marks;
pub use matching::Matching;
pub use scan::Scan;
