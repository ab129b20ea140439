//! A vector with nothing in it, at another lifetime. It owns its block alone, so its memory may serve values
//! that live as long as others.

ghost use Rattle.std.specs.Prelude.{◌≡◌, []};

use jp_evaluate::Frame;
use jp_flat::FlatValue;
use jp_loose::Loose;
use std::alloc::Global;

/// What a walk through a document in tables keeps.
pub(crate) type Frames<'d> = Vec<Frame<'d, FlatValue<'d, 'd>>>;

/// The box of a vector of frames, which is cleared, for other frames.
pub(crate) fn frames_again<'a, 'b>(mut frames: Box<Frames<'a>, Global>) -> Box<Frames<'b>, Global>
    ensures { result.value.items ≡ [] }
{
    frames.clear();
    loose_frames(Loose::of(frames)).into_box()
}

/// The pointer of such a box, where the vector has nothing in it, as one of other frames.
fn loose_frames<'a, 'b>(loose: Loose<Frames<'a>, Global>) -> Loose<Frames<'b>, Global>
    requires { loose.value.items ≡ [] }
    ensures { result.value.items ≡ [] }
{
    let Loose { at, alloc } = loose;
    Loose {
        at: at as *mut Frames<'b>,
        alloc,
    }
}
