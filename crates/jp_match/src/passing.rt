//! One pass of marks over a text, from many offsets at once.

ghost use Rattle.std.specs.Prelude.{◌≤◌};
ghost use Rattle.jp_iregexp.specs.Tree.{tree};
ghost use Rattle.jp_iregexp.specs.Language.{Language};
ghost use Rattle.jp_iregexp.specs.Positions.{positions_of};
ghost use Rattle.jp_match.specs.Private.Search.{Leads};

use crate::counts::counts_of;
use crate::marking::Marking;
use crate::search::Search;
use jp_iregexp::Pattern;
use std::alloc::AllocError;

/// Replaces the offsets by those that a word of the pattern reaches from them. It goes over the
/// text once, and enters the pattern at each offset of the set.
pub(crate) fn pass(pattern: &Pattern, search: &mut Search<'_>) -> Result<(), AllocError>
    requires { positions_of (tree pattern.now) ≤ 4096 }
    ensures { Leads (Language (tree pattern.now)) search.old search.new result }
{
    let text = search.ground.text;
    let mut marking = Marking::new(search.ground.alloc, pattern, counts_of(pattern))?;
    for (i, c) in text.iter().enumerate() {
        let entered = search.offsets[i];
        search.offsets[i] = marking.step(entered, *c, &mut search.tests);
    }
    let entered = search.offsets[text.len()];
    search.offsets[text.len()] = marking.ends(entered);
    Ok(())
}
