//! The box behind a handle, as C may hold it.

ghost use Rattle.std.specs.Prelude.{◌≡◌, Option, None, Some, true};
ghost use Rattle.std.specs.Option.{is_some};
ghost use Rattle.std.specs.Coded.{coded_option};
ghost use Rattle.jp_c.specs.Held.{held_at};
ghost use Rattle.jp_c.specs.contracts.kept.Kept as row;
ghost use Rattle.jp_c.specs.declared.kept.Kept as kept;

use crate::kept::Kept;
use jp_loose::Loose;
use std::alloc::Global;
use std::marker::Model;
use std::ptr::null_mut;

/// A pointer that owns the box at it, or nothing. The type at it is not named, since C is given no
/// pointer to such a type. Dropping one frees no box.
#[repr(C)]
#[derive(Drop)]
pub struct Held {
    at: *mut u8,
    alloc: Global,
    pub(crate) ghost value: { Option kept.Kept } by { coded_option row.the_row.coded },
}

impl Model for Held {
    ghost also_owns = { λ held. held_at held.alloc held.at held.value };
}

impl Held {
    /// Nothing.
    pub(crate) fn nothing(alloc: Global) -> Held
        ensures { result.value ≡ None }
    {
        let none = null_mut();
        Held::beside(none, alloc)
    }

    /// A pointer that owns nothing.
    fn beside(at: *mut u8, alloc: Global) -> Held
        ensures { result.value ≡ None }
    {
        Held { at, alloc }
    }

    /// The pointer of a box.
    pub(crate) fn close(loose: Loose<Kept, Global>) -> Held
        ensures { result.value ≡ Some loose.value }
    {
        let Loose { at, alloc } = loose;
        Held {
            at: at as *mut u8,
            alloc,
        }
    }

    /// The box that is held.
    pub(crate) fn open(self) -> Loose<Kept, Global>
        requires { is_some self.value ≡ true }
        ensures { self.value ≡ Some result.value }
    {
        let Held { at, alloc } = self;
        Loose {
            at: at as *mut Kept,
            alloc,
        }
    }
}
