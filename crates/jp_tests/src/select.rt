//! Rows of selectors, of descendants and of comparisons.

mod comparisons;
mod decimals;
mod selectors;
