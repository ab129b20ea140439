//! Singular queries (RFC 9535 section 2.3.5.1), followed from value to value. They take no memory.

ghost use Rattle.std.specs.Prelude.{◌≡◌, option_map};
ghost use Rattle.jp_document.specs.Node.{root_of};
ghost use Rattle.jp_tree.specs.declared.tree.Query.{out-Query};
ghost use Rattle.jp_tree.specs.Views.{query_of, segment_of};
ghost use Rattle.jp_evaluate.specs.Nodelist.{nodelist_at, single_node_value, start_of};
ghost use Rattle.jp_evaluate.specs.Private.Asked.{asked};
ghost use Rattle.jp_evaluate.specs.Private.Singular.{single_value};

use crate::filter::Asking;
use jp_lent::Selectable;
use jp_match::Matching;
use jp_select::single;
use jp_tree::{Query, Segment};

impl<'a, 'q, V: Selectable + 'q, M: Matching> Asking<'a, 'q, V, M> {
    /// The value of the node that a singular query selects, None where it selects none. Other
    /// queries have None.
    #[inline(always)]
    pub(crate) fn node_value(&self, query: &Query) -> Option<V>
        ensures { option_map V.meaning result ≡ single_node_value (query_of query.now)
            (asked V.meaning self.now (nodelist_at (query_of query.now))) }
    {
        let mut value = self.start(query);
        for segment in &query.segments {
            value = single_value(segment, value)?;
        }
        Some(value)
    }

    /// Where a query begins: at the root for `$`, at the current value for `@`.
    pub(crate) fn start(&self, query: &Query) -> V
        ensures { root_of (V.meaning result)
            ≡ asked V.meaning self.now (start_of (out-Query query.now).absolute) }
    {
        if query.absolute {
            self.evaluation.root
        } else {
            self.current
        }
    }
}

/// The value that a segment of a singular query selects at a value, None where it selects none.
/// Other segments have None.
#[inline(always)]
fn single_value<V: Selectable>(segment: &Segment, value: V) -> Option<V>
    ensures { option_map V.meaning result
        ≡ single_value (segment_of segment.now) (V.meaning value) }
{
    if segment.descendant || segment.selectors.len() != 1 {
        return None;
    }
    let (_, value) = single(segment.selectors.first()?, value)?;
    Some(value)
}
