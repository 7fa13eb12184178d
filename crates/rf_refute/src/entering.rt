ghost use Rattle.std.specs.Prelude.{◌≡◌, ◌<◌, true, length};
ghost use Rattle.rf_form.specs.Alive.{IsFit};
ghost use Rattle.rf_form.specs.Families.{at};
ghost use Rattle.rf_refute.specs.Stacks.{Entered, Grown};

use crate::frames::{Frame, Frames};
use crate::taking::keep_only;
use crate::values::next_from;
use rf_form::Vals;
use rf_trail::Store;

/// A frame for the next alive place of the variable, if there is one.
fn hold_next<S: Store>(vals: &Vals, store: &S, frames: &mut Frames, x: u32, v: u16)
    requires fit { IsFit vals.now (S.family store.now) }
    requires room { length frames.old.0 < frames.old.1 }
    ensures room { frames.new.1 ≡ frames.old.1 }
    ensures entered { Entered vals.now (S.family store.now)
        (length (S.removed store.now)) x v frames.old.0 frames.new.0 }
{
    match next_from(vals, store, x, v as u32 + 1) {
        None => {}
        Some(w) => frames.push(Frame {
            mark: store.mark().at,
            x,
            v: w,
        }),
    }
}

/// Goes on with the variable at that place alone. A frame holds the next one, if there is one.
pub fn enter<S: Store>(vals: &Vals, store: &mut S, frames: &mut Frames, x: u32, v: u16)
    requires fit { IsFit vals.now (S.family store.old) }
    requires alive { S.family store.old x v ≡ true }
    requires room { length frames.old.0 < frames.old.1 }
    ensures first { S.first store.new ≡ S.first store.old }
    ensures grown { Grown (S.removed store.old) (S.removed store.new) }
    ensures family { S.family store.new ≡ at (S.family store.old) x v }
    ensures room { frames.new.1 ≡ frames.old.1 }
    ensures entered { Entered vals.now (S.family store.old)
        (length (S.removed store.old)) x v frames.old.0 frames.new.0 }
{
    hold_next(vals, store, frames, x, v);
    keep_only(vals, store, x, v);
}
