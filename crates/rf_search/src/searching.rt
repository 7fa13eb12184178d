ghost use Rattle.std.specs.Prelude.{◌≡◌, ◌≤◌, [], IfOk, OnOk, length, map};
ghost use Rattle.rf_form.specs.Alive.{IsFit};
ghost use Rattle.rf_form.specs.Families.{Filled};
ghost use Rattle.rf_cons.specs.Systems.{System};
ghost use Rattle.rf_prop.specs.Queues.{Wired};
ghost use Rattle.rf_refute.specs.Shown.{shown};
ghost use Rattle.rf_refute.specs.Stacks.{alive_count};
ghost use Rattle.rf_search.specs.Ended.{Ended};

use crate::answers::End;
use crate::splitting::{find_wide, resume, split};
use crate::writing::close_written;
use rf_cons::Constraints;
use rf_prop::{Net, Outcome, Step};
use rf_refute::{Frames, Node};
use rf_text::{List, Memory};
use rf_trail::Store;
use std::alloc::Global;

/// Searches in canonical order, and writes the refutation. Each value of a split after the first
/// takes one of the budget.
pub fn search<C: Constraints, S: Store>(
    alloc: Global,
    all: &C,
    net: &Net,
    store: &mut S,
    frames: &mut Frames,
    log: &mut List<Step>,
    nodes: &mut List<Node>,
    budget: u64,
) -> Result<End, Memory>
    requires wired { Wired (C.system all.now) net.now.vars net.now.watchers }
    requires fit { IsFit (C.system all.now).vals (S.family store.old) }
    requires filled { Filled (length (C.system all.now).vals) (S.family store.old) }
    requires none { frames.old.0 ≡ [] }
    requires blank { nodes.old ≡ [] }
    requires room { alive_count (C.system all.now).vals (S.family store.old) ≤ frames.old.1 }
    ensures fit { OnOk result (IsFit (C.system all.now).vals (S.family store.new)) }
    ensures ended { IfOk result (Ended (C.system all.now) (S.family store.old) budget
        (S.family store.new) (map shown nodes.new)) }
{
    let mut left = budget;
    loop {
        match close_written(all, net, store, log, nodes)? {
            Outcome::Closed => {}
            Outcome::Empty { c: _ } => {
                if frames.is_empty() {
                    return Ok(End::Nothing { left });
                }
                if left == 0 {
                    return Ok(End::Budget);
                }
                left -= 1;
                resume(all, store, frames);
                continue;
            }
        }
        match find_wide(all, store)? {
            None => return Ok(End::Solved { left }),
            Some(x) => split(alloc, all, store, frames, nodes, x)?,
        }
    }
}
