//! Rows of normalized paths, and of texts between quotes.

mod paths;
mod spellings;
