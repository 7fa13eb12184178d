ghost use Rattle.std.specs.Prelude.{◌≡◌, ◌≤◌, ◌<◌, [], length, map};
ghost use Rattle.rf_form.specs.Alive.{IsFit};
ghost use Rattle.rf_cons.specs.Systems.{System};
ghost use Rattle.rf_refute.specs.Numbers.{Rises};
ghost use Rattle.rf_refute.specs.Shown.{shown, Tells};
ghost use Rattle.rf_refute.specs.Stacks.{alive_count};

use crate::fitting::fits;
use crate::frames::Frames;
use crate::nodes::{Node, Verdict};
use crate::opening::open;
use rf_cons::Constraints;
use rf_trail::Store;

/// Checks the nodes one by one. The frames hold the families that are still to be refuted.
pub fn check_in<C: Constraints, S: Store>(
    all: &C,
    nodes: &[Node],
    store: &mut S,
    frames: &mut Frames,
) -> Verdict
    requires rising { Rises (C.system all.now) }
    requires fit { IsFit (C.system all.now).vals (S.family store.old) }
    requires none { frames.old.0 ≡ [] }
    requires room { alive_count (C.system all.now).vals (S.family store.old) ≤ frames.old.1 }
    ensures first { S.first store.new ≡ S.first store.old }
    ensures room { frames.new.1 ≡ frames.old.1 }
    ensures verdict { Tells (C.system all.now) (S.family store.old) (map shown nodes.now) result }
{
    for at in 0..nodes.len() {
        let node = &nodes[at];
        if !fits(all, store, node) {
            return Verdict::Bad {
                node: at as u64 + 1,
            };
        }
        if !open(all, node, store, frames) {
            if at + 1 < nodes.len() {
                return Verdict::Bad {
                    node: at as u64 + 2,
                };
            }
            return Verdict::Good;
        }
    }
    Verdict::Bad {
        node: nodes.len() as u64 + 1,
    }
}
