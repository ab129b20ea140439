//! The canonical text of a query.

ghost use Rattle.std.specs.Prelude.{◌≡◌, string_bytes, IfOk};
ghost use Rattle.std.specs.Str.{chars};
ghost use Rattle.jp_tree.specs.Views.{query_of};
ghost use Rattle.jp_canon.specs.Canon.{canon_of};

use crate::segments::write_query;
use crate::writer::Writer;
use jp_check::Checked;
use std::alloc::{AllocError, Global};

/// The canonical text of a query: of all its spellings the one without blank space and without a
/// choice (RFC 9535 sections 2.1 to 2.5). It is the same in each profile. It goes over the tree
/// once. The only error is that memory ran out.
pub fn canon(alloc: Global, query: &Checked) -> Result<String, AllocError>
    ensures { IfOk result (λ s. chars (string_bytes s) ≡ canon_of (query_of query.now.query)) }
{
    let mut out = Writer::new(alloc);
    write_query(&mut out, query.query())?;
    Ok(out.into_text())
}
