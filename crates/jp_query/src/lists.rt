//! Lists and texts that grow, and values in boxes.
//!
//! What a level of a query reads is handed on in a box, so that a level takes little of the stack.

ghost use Rattle.std.specs.Prelude.{◌≡◌, ◌++◌, ◌∷◌, [], IfOk};
ghost use Rattle.std.specs.Str.{chars};
ghost use Rattle.std.specs.String.{string_bytes};

use std::alloc::{AllocError, Global};

/// Puts an item at the list's end.
pub(crate) fn append<T: Drop>(list: &mut Vec<T>, item: T) -> Result<(), AllocError>
    ensures { IfOk result (λ _. list.new.items ≡ list.old.items ++ item ∷ []) }
{
    match list.push(item) {
        Ok(()) => Ok(()),
        Err(full) => Err(AllocError::from(full)),
    }
}

/// The value in a box.
pub(crate) fn boxed<T: Drop>(alloc: Global, value: T) -> Result<Box<T>, AllocError>
    ensures { IfOk result (λ b. b.value ≡ value) }
{
    match Box::new(alloc, value) {
        Ok(value) => Ok(value),
        Err(full) => Err(AllocError::from(full)),
    }
}

/// Puts a boxed item at the list's end.
#[inline(never)]
pub(crate) fn append_boxed<T: Drop>(list: &mut Vec<T>, item: Box<T>) -> Result<(), AllocError>
    ensures { IfOk result (λ _. list.new.items ≡ list.old.items ++ item.value ∷ []) }
{
    append(list, Box::into_inner(item))
}

/// Puts a character at the text's end.
pub(crate) fn append_char(text: &mut String, c: char) -> Result<(), AllocError>
    ensures { IfOk
        result
        (λ _. chars (string_bytes text.new) ≡ chars (string_bytes text.old) ++ c ∷ []) }
{
    text.push(c)?;
    Ok(())
}
