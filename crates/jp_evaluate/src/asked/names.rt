//! The names of the members that a query asks for.

ghost use Rattle.std.specs.Prelude.{◌≡◌, true, IfOk};
ghost use Rattle.jp_evaluate.specs.Private.Asks.{AskedOf, Collects};

use std::alloc::AllocError;

/// How many names there are at most: each member's name is compared with each of them.
const MOST_NAMES: usize = 8;

/// Puts a name among others, unless it is one of them; whether there was room for it.
pub(crate) fn push_name(name: &str, names: &mut Vec<String>) -> Result<bool, AllocError>
    ensures { IfOk result (Collects names.old.items names.new.items (λ p. p name.now)) }
{
    if is_among(names, name) {
        return Ok(true);
    }
    if names.len() >= MOST_NAMES {
        return Ok(false);
    }
    let name = String::from_str(*names.allocator(), name)?;
    names.push(name)?;
    Ok(true)
}

/// Whether the name is one of these.
fn is_among(names: &[String], name: &str) -> bool
    ensures { result ≡ true → AskedOf names.now (λ p. p name.now) }
{
    for known in names {
        if known.as_str() == name {
            return true;
        }
    }
    false
}
