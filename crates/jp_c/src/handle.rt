//! Handles: a query or a document that C keeps from one call to the next.

ghost use Rattle.std.specs.Prelude.{◌≡◌, IfOk, None, Some, option_map};
ghost use Rattle.std.specs.Option.{is_some};

use crate::held::Held;
use crate::kept::Kept;
use jp_loose::Loose;
use std::alloc::{AllocError, Global};
use std::mem;

/// A query or a document, or nothing, which is what bytes that are all 0 stand for.
#[repr(C)]
pub struct Handle {
    pub(crate) held: Held,
    full: bool,
    ghost tells: { full ≡ is_some held.value },
}

impl Drop for Handle {
    fn drop(self) {
        drop(self.into_box())
    }
}

impl Handle {
    ghost use Rattle.jp_c.specs.Handles.{kept_by};

    /// Nothing.
    pub(crate) fn empty(alloc: Global) -> Handle
        ensures { kept_by result ≡ None }
    {
        Handle {
            held: Held::nothing(alloc),
            full: false,
        }
    }

    /// A handle that keeps this.
    pub(crate) fn keep(alloc: Global, kept: Kept) -> Result<Handle, AllocError>
        ensures { IfOk result (λ h. kept_by h ≡ Some kept) }
    {
        match Box::new(alloc, kept) {
            Ok(kept) => Ok(Handle::of(kept)),
            Err(error) => Err(AllocError::from(error)),
        }
    }

    /// The handle of a box.
    fn of(kept: Box<Kept, Global>) -> Handle
        ensures { kept_by result ≡ Some kept.value }
    {
        Handle {
            held: Held::close(Loose::of(kept)),
            full: true,
        }
    }

    /// The handle of a box, or an empty one where there is none.
    pub(crate) fn of_any(alloc: Global, kept: Option<Box<Kept, Global>>) -> Handle
        ensures { kept_by result ≡ option_map (λ b. b.value) kept }
    {
        match kept {
            Some(kept) => Handle::of(kept),
            None => Handle::empty(alloc),
        }
    }

    /// What is kept.
    pub(crate) fn into_box(self) -> Option<Box<Kept, Global>>
        ensures { option_map (λ b. b.value) result ≡ kept_by self }
    {
        let Handle { held, full } = self;
        if full {
            Some(held.open().into_box())
        } else {
            None
        }
    }

    /// Takes what is kept out of a handle, which then keeps nothing.
    pub(crate) fn take(alloc: Global, handle: &mut Handle) -> Option<Box<Kept, Global>>
        ensures gives { option_map (λ b. b.value) result ≡ kept_by handle.old }
        ensures empty { kept_by handle.new ≡ None }
    {
        mem::replace(handle, Handle::empty(alloc)).into_box()
    }
}
