ghost use Rattle.std.specs.Prelude.{◌≡◌, ◌+◌, ◌≤◌, ◌<◌, ◌++◌, [], ℕ, length, map};
ghost use Rattle.std.specs.Prelude.{IfOk, OnOk, MatchBool, MatchOption};
ghost use Rattle.rf_form.specs.Alive.{IsFit};
ghost use Rattle.rf_form.specs.Families.{at, Filled, IsWide};
ghost use Rattle.rf_form.specs.Need.{values, FirstWide, AllSingle};
ghost use Rattle.rf_cons.specs.Systems.{System, problem};
ghost use Rattle.rf_refute.specs.Good.{counted};
ghost use Rattle.rf_refute.specs.Shown.{shown};
ghost use Rattle.rf_refute.specs.Stacks.{pending, alive_count, Held, values_from};
ghost use Rattle.rf_search.specs.Stands.{Stands, FilledFrames};
ghost use Rattle.rf_search.specs.Writes.{Adds};

use crate::writing::places_of;
use rf_cons::Constraints;
use rf_form::{Alive, Vals};
use rf_refute::{Frames, Node, enter, go_back, next_from};
use rf_text::{List, Memory};
use rf_trail::Store;
use std::alloc::Global;

/// Whether the variable has two places.
fn is_wide<D: Alive>(vals: &Vals, doms: &D, x: u32) -> bool
    requires { IsFit vals.now (D.family doms.now) }
    ensures { MatchBool result
        (IsWide (D.family doms.now) x) (IsWide (D.family doms.now) x → ⊥) }
{
    match next_from(vals, doms, x, 0) {
        None => false,
        Some(v) => match next_from(vals, doms, x, v as u32 + 1) {
            None => false,
            Some(_) => true,
        },
    }
}

/// The first variable with two places or more.
pub fn find_wide<C: Constraints, D: Alive>(all: &C, doms: &D) -> Result<Option<u32>, Memory>
    requires { IsFit (C.system all.now).vals (D.family doms.now) }
    ensures { IfOk result (λ found. MatchOption found
        (AllSingle (problem (C.system all.now)) (D.family doms.now))
        (FirstWide (problem (C.system all.now)) (D.family doms.now))) }
{
    let vals = all.vals();
    for x in 0..vals.len() {
        match u32::try_from(x) {
            Err(_) => return Err(Memory),
            Ok(x) => {
                if is_wide(vals, doms, x) {
                    return Ok(Some(x));
                }
            }
        }
    }
    Ok(None)
}

/// Splits the variable: writes the node, and goes on with its first value. A frame holds the
/// others.
pub fn split<C: Constraints, S: Store>(
    alloc: Global,
    all: &C,
    store: &mut S,
    frames: &mut Frames,
    nodes: &mut List<Node>,
    x: u32,
) -> Result<(), Memory>
    requires wide { FirstWide (problem (C.system all.now)) (S.family store.old) x }
    requires fit { IsFit (C.system all.now).vals (S.family store.old) }
    requires filled { Filled (length (C.system all.now).vals) (S.family store.old) }
    requires held { Held (C.system all.now).vals frames.old.1
        (S.first store.old) (S.removed store.old) frames.old.0 }
    requires frames { FilledFrames (length (C.system all.now).vals)
        (S.first store.old) (S.removed store.old) frames.old.0 }
    requires light { length frames.old.0 + alive_count (C.system all.now).vals (S.family store.old)
        ≤ frames.old.1 }
    ensures first { S.first store.new ≡ S.first store.old }
    ensures room { frames.new.1 ≡ frames.old.1 }
    ensures adds { OnOk result (Adds (C.system all.now) (S.family store.old)
        (map (at (S.family store.old) x)
        (values (problem (C.system all.now)) (S.family store.old) x))
        (map shown nodes.old) (map shown nodes.new)) }
    ensures counted { OnOk result (counted (map shown nodes.new) + 1
        ≡ counted (map shown nodes.old)
        + length (values (problem (C.system all.now)) (S.family store.old) x)) }
    ensures lighter { OnOk result (alive_count (C.system all.now).vals (S.family store.new)
        < alive_count (C.system all.now).vals (S.family store.old)) }
    ensures stands { OnOk result (Stands (C.system all.now) frames.old.1 (S.first store.old)
        (map (at (S.family store.old) x)
        (values (problem (C.system all.now)) (S.family store.old) x)
        ++ pending (C.system all.now).vals (S.first store.old)
        (S.removed store.old) frames.old.0)
        (S.family store.new) (S.removed store.new) frames.new.0) }
{
    let table = all.vals();
    let vals = places_of(alloc, table, store, x)?;
    nodes.push(Node::Split { x, vals })?;
    match next_from(table, store, x, 0) {
        None => Ok(()),
        Some(v) => {
            enter(table, store, frames, x, v);
            Ok(())
        }
    }
}

/// Goes on with what the top frame holds.
pub fn resume<C: Constraints, S: Store>(all: &C, store: &mut S, frames: &mut Frames)
    requires some { frames.old.0 ≡ [] → ⊥ }
    requires held { Held (C.system all.now).vals frames.old.1
        (S.first store.old) (S.removed store.old) frames.old.0 }
    requires frames { FilledFrames (length (C.system all.now).vals)
        (S.first store.old) (S.removed store.old) frames.old.0 }
    ensures first { S.first store.new ≡ S.first store.old }
    ensures room { frames.new.1 ≡ frames.old.1 }
    ensures stands { Stands (C.system all.now) frames.old.1 (S.first store.old)
        (pending (C.system all.now).vals (S.first store.old) (S.removed store.old) frames.old.0)
        (S.family store.new) (S.removed store.new) frames.new.0 }
{
    let table = all.vals();
    match frames.pop() {
        None => {}
        Some(top) => {
            go_back(store, top.mark);
            enter(table, store, frames, top.x, top.v);
        }
    }
}
