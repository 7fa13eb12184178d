ghost use Rattle.std.specs.Prelude.{◌≡◌, ◌+◌, ◌≤◌, [], ◌∷◌, ◌++◌, true, MatchBool, length};
ghost use Rattle.rf_form.specs.Alive.{IsFit};
ghost use Rattle.rf_form.specs.Families.{without};
ghost use Rattle.rf_cons.specs.Systems.{System};
ghost use Rattle.rf_refute.specs.Good.{Fits, below};
ghost use Rattle.rf_refute.specs.Shown.{shown};
ghost use Rattle.rf_refute.specs.Stacks.{tasks, values_from, pending, alive_count, Held, Opened};

use crate::entering::enter;
use crate::frames::Frames;
use crate::nodes::Node;
use crate::taking::go_back;
use crate::values::next_from;
use rf_cons::Constraints;
use rf_form::Vals;
use rf_trail::Store;

/// The child of a removal.
fn open_remove<S: Store>(vals: &Vals, store: &mut S, frames: &Frames, x: u32, v: u16)
    requires fit { IsFit vals.now (S.family store.old) }
    requires alive { S.family store.old x v ≡ true }
    requires held { Held vals.now frames.now.1
        (S.first store.old) (S.removed store.old) frames.now.0 }
    requires light { length frames.now.0 + alive_count vals.now (S.family store.old)
        ≤ frames.now.1 }
    ensures first { S.first store.new ≡ S.first store.old }
    ensures opened { Opened vals.now frames.now.1 (S.first store.old)
        (without (S.family store.old) x v
        ∷ pending vals.now (S.first store.old) (S.removed store.old) frames.now.0)
        (S.family store.new) (S.removed store.new) frames.now.0 }
{
    store.remove(x, v);
}

/// The first child of a split. A frame holds the others.
fn open_split<S: Store>(vals: &Vals, store: &mut S, frames: &mut Frames, x: u32)
    requires fit { IsFit vals.now (S.family store.old) }
    requires some { values_from vals.now (S.family store.old) x 0 ≡ [] → ⊥ }
    requires held { Held vals.now frames.old.1
        (S.first store.old) (S.removed store.old) frames.old.0 }
    requires light { length frames.old.0 + alive_count vals.now (S.family store.old)
        ≤ frames.old.1 }
    ensures first { S.first store.new ≡ S.first store.old }
    ensures room { frames.new.1 ≡ frames.old.1 }
    ensures opened { Opened vals.now frames.old.1 (S.first store.old)
        (tasks vals.now (S.family store.old) x 0
        ++ pending vals.now (S.first store.old) (S.removed store.old) frames.old.0)
        (S.family store.new) (S.removed store.new) frames.new.0 }
{
    match next_from(vals, store, x, 0) {
        None => {}
        Some(v) => enter(vals, store, frames, x, v),
    }
}

/// The first family that the frames hold, if they hold one.
fn resume<S: Store>(vals: &Vals, store: &mut S, frames: &mut Frames) -> bool
    requires held { Held vals.now frames.old.1
        (S.first store.old) (S.removed store.old) frames.old.0 }
    ensures first { S.first store.new ≡ S.first store.old }
    ensures room { frames.new.1 ≡ frames.old.1 }
    ensures opened { MatchBool result
        (Opened vals.now frames.old.1 (S.first store.old)
        (pending vals.now (S.first store.old) (S.removed store.old) frames.old.0)
        (S.family store.new) (S.removed store.new) frames.new.0)
        (frames.old.0 ≡ []) }
{
    match frames.pop() {
        None => false,
        Some(top) => {
            go_back(store, top.mark);
            enter(vals, store, frames, top.x, top.v);
            true
        }
    }
}

/// The first family behind a node that fits: its first child, or what the frames hold. Whether there is one.
pub fn open<C: Constraints, S: Store>(
    all: &C,
    node: &Node,
    store: &mut S,
    frames: &mut Frames,
) -> bool
    requires fits { Fits (C.system all.now) (S.family store.old) (shown node.now) }
    requires fit { IsFit (C.system all.now).vals (S.family store.old) }
    requires held { Held (C.system all.now).vals frames.old.1
        (S.first store.old) (S.removed store.old) frames.old.0 }
    requires light { length frames.old.0 + alive_count (C.system all.now).vals (S.family store.old)
        ≤ frames.old.1 }
    ensures first { S.first store.new ≡ S.first store.old }
    ensures room { frames.new.1 ≡ frames.old.1 }
    ensures opened { let todo = below (S.family store.old) (shown node.now)
        ++ pending (C.system all.now).vals (S.first store.old) (S.removed store.old) frames.old.0 in
        MatchBool result
        (Opened (C.system all.now).vals frames.old.1 (S.first store.old) todo
        (S.family store.new) (S.removed store.new) frames.new.0)
        (todo ≡ []) }
{
    match node {
        Node::Remove { x, v, c: _ } => {
            open_remove(all.vals(), store, frames, *x, *v);
            true
        }
        Node::Split { x, vals: _ } => {
            open_split(all.vals(), store, frames, *x);
            true
        }
        Node::Fail { c: _ } => resume(all.vals(), store, frames),
    }
}
