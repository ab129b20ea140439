//! Normalized paths (RFC 9535 section 2.7).

ghost use Rattle.std.specs.Prelude.{◌≡◌, ◌++◌, map, string_bytes, IfOk, OnOk};
ghost use Rattle.jp_decimal.specs.Appended.{IsBegun};
ghost use Rattle.jp_document.specs.Location.{step_of, owned_step};
ghost use Rattle.jp_document.specs.Path.{path_of, quoted, step_text, index_text};

use crate::location::{OwnedStep, Step};
use crate::spelling::push_quoted;
use itoa::Buffer;
use std::alloc::{AllocError, Global};

/// The normalized path of a location (RFC 9535 section 2.7). The only error is that memory ran out.
pub fn path_text(alloc: Global, location: &[Step]) -> Result<String, AllocError>
    ensures { IfOk result (λ s. string_bytes s ≡ path_of (map step_of location.now)) }
{
    let mut text = String::new(alloc);
    push_path(&mut text, location)?;
    Ok(text)
}

/// A text between single quotes, spelled as a name in a normalized path (RFC 9535 section 2.7). The
/// only error is that memory ran out.
pub fn quote(alloc: Global, text: &str) -> Result<String, AllocError>
    ensures { IfOk result (λ s. string_bytes s ≡ quoted text.now) }
{
    let mut quoted = String::new(alloc);
    push_quote(&mut quoted, text)?;
    Ok(quoted)
}

/// Appends a text between single quotes, spelled as a name in a normalized path (RFC 9535 section
/// 2.7). Where memory runs out, the text still begins with what it held, and only a beginning of
/// what was to come stands after it.
pub fn push_quote(out: &mut String, text: &str) -> Result<(), AllocError>
    ensures ok { OnOk result (string_bytes out.new ≡ string_bytes out.old ++ quoted text.now) }
    ensures kept { IsBegun (string_bytes out.old) (quoted text.now) (string_bytes out.new) }
{
    push_quoted(out, text, b'\'')
}

/// Appends the normalized path of a location (RFC 9535 section 2.7). Where memory runs out, the
/// text still begins with what it held, and only a beginning of the path stands after it.
pub fn push_path(out: &mut String, location: &[Step]) -> Result<(), AllocError>
    ensures ok { OnOk result
        (string_bytes out.new ≡ string_bytes out.old ++ path_of (map step_of location.now)) }
    ensures kept { IsBegun (string_bytes out.old) (path_of (map step_of location.now))
        (string_bytes out.new) }
{
    out.push('$')?;
    for step in location {
        push_step(out, *step)?;
    }
    Ok(())
}

/// The normalized path of a location that borrows nothing.
pub(crate) fn owned_path_text(alloc: Global, location: &[OwnedStep]) -> Result<String, AllocError>
    ensures { IfOk result (λ s. string_bytes s ≡ path_of (map owned_step location.now)) }
{
    let mut text = String::from_str(alloc, "$")?;
    for step in location {
        push_step(&mut text, step.as_step())?;
    }
    Ok(text)
}

/// Appends one step of a normalized path, as it stands there between brackets (RFC 9535 section 2.7).
/// Where memory runs out, the text still begins with what it held, and only a beginning of the step
/// stands after it.
pub fn push_step(out: &mut String, step: Step) -> Result<(), AllocError>
    ensures ok { OnOk result
        (string_bytes out.new ≡ string_bytes out.old ++ step_text (step_of step.entry)) }
    ensures kept { IsBegun (string_bytes out.old) (step_text (step_of step.entry))
        (string_bytes out.new) }
{
    out.push('[')?;
    match step {
        Step::Name(name) => push_quote(out, name)?,
        Step::Index(index) => push_index(out, index)?,
    }
    out.push(']')
}

/// Appends an index in decimal digits. Where memory runs out, only a beginning of them stands behind the
/// text.
fn push_index(out: &mut String, index: u64) -> Result<(), AllocError>
    ensures ok { OnOk result (string_bytes out.new ≡ string_bytes out.old ++ index_text index) }
    ensures kept { IsBegun (string_bytes out.old) (index_text index) (string_bytes out.new) }
{
    out.push_str(Buffer::new().format(index))
}
