//! The trees of queries and the spans of their components, and a refusal of each kind. Each other text
//! that is refused is a row of jp_command's table.

mod filter_texts;
mod filters;
mod queries;
mod refusals;

use jp_query::{Span, parse};
use std::alloc::Global;
use std::process::Abort;
use std::test::Fail;

/// A query, its tree as `Debug` writes it, and the spans of its components.
type Row = (&'static str, &'static str, &'static [Option<Span>]);

/// Asserts the tree of a query and the spans of its components.
fn assert_tree(rt: &impl Abort, alloc: Global, (text, tree, spans): &Row) -> Result<(), Fail> {
    let parsed = parse(alloc, text)?;
    assert_eq!(rt; parsed.spans(), *spans);
    let query = parsed.into_query();
    let written = format!(in alloc; "{query:?}")?;
    assert_eq!(rt; written.as_str(), *tree);
    Ok(())
}

/// Asserts so of each query.
fn assert_trees(rt: &impl Abort, alloc: Global, rows: &[Row]) -> Result<(), Fail> {
    for row in rows {
        assert_tree(rt, alloc, row)?;
    }
    Ok(())
}
