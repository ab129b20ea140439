//! Reading patterns.

ghost use Rattle.std.specs.Prelude.{◌≡◌, IfOk, IfErr};
ghost use Rattle.std.specs.Str.{chars};
ghost use Rattle.jp_iregexp.specs.Tree.{tree};
ghost use Rattle.jp_iregexp.specs.Grammar.{SpellsPattern};
ghost use Rattle.jp_iregexp.specs.Groups.{group_limit};
ghost use Rattle.jp_iregexp.specs.Spelled.{SpellsNone};

use crate::branches::pattern;
use crate::fault::PatternFault;
use crate::pattern::Pattern;
use jp_reading::{Reader, Stop};
use std::alloc::Global;

/// How many groups may be inside one another at most.
pub const GROUP_LIMIT: u32 = 64;

/// The pattern that a text spells (RFC 9485 section 3), with at most [`GROUP_LIMIT`] groups inside
/// one another. `NotConforming` says that it spells none so, `NoMemory` nothing of the text. It goes
/// over the text once.
pub fn read_pattern(alloc: Global, text: &str) -> Result<Pattern, PatternFault>
    ensures found { IfOk result (λ p. SpellsPattern group_limit (tree p) (chars text.now)) }
    ensures only { IfErr result
        (λ e. e ≡ PatternFault.NotConforming → SpellsNone group_limit (chars text.now)) }
{
    let mut reader = Reader::new(alloc, text);
    match pattern(&mut reader, GROUP_LIMIT) {
        Ok(pattern) => Ok(pattern),
        Err(Stop::Memory) => Err(PatternFault::NoMemory),
        Err(Stop::Syntax(_)) => Err(PatternFault::NotConforming),
        Err(Stop::TooDeep(_)) => Err(PatternFault::NotConforming),
    }
}
