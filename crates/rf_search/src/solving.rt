ghost use Rattle.std.specs.Prelude.{◌≡◌, ◌<◌, IfOk, length, slice_index_or};
ghost use Rattle.rf_form.specs.Alive.{IsFit, among};
ghost use Rattle.rf_form.specs.Families.{Filled};
ghost use Rattle.rf_form.specs.Need.{solution};
ghost use Rattle.rf_form.specs.Truths.{row};
ghost use Rattle.rf_cons.specs.Systems.{System, problem};
ghost use Rattle.rf_trail.specs.Trails.{AreSets};
ghost use Rattle.rf_refute.specs.Stacks.{values_from};
ghost use Rattle.rf_search.specs.Answers.{Answers, valued};

use crate::answers::{End, Found};
use crate::searching::search;
use rf_cons::Constraints;
use rf_form::{Alive, Assign2, Doms, Vals};
use rf_prop::Net;
use rf_refute::{Frames, Tree, next_from, room_of};
use rf_text::{List, Memory};
use rf_trail::Trail;
use std::alloc::Global;

/// The first alive place of the variable, and 0 where there is none.
fn first_place<D: Alive>(vals: &Vals, doms: &D, x: u32) -> u16
    requires { IsFit vals.now (D.family doms.now) }
    ensures { result ≡ slice_index_or (values_from vals.now (D.family doms.now) x 0) 0 0 }
{
    match next_from(vals, doms, x, 0) {
        None => 0,
        Some(v) => v,
    }
}

/// The value at that place, and 0 where there is none.
#[tactic(auto, using(std::proofs::lemmas::List::get_or_default))]
fn value_at(values: &[u32], place: usize) -> u32
    ensures { result ≡ slice_index_or values.now place 0 }
{
    if place < values.len() {
        values[place]
    } else {
        0
    }
}

#[tactic(auto, using(std::proofs::lemmas::List::get_or_default))]
fn value_of<D: Alive>(vals: &Vals, doms: &D, x: usize) -> Result<u32, Memory>
    requires fit { IsFit vals.now (D.family doms.now) }
    requires inside { x < length vals.now }
    ensures { IfOk result (λ value. value ≡ slice_index_or (row vals.now x)
        (slice_index_or (values_from vals.now (D.family doms.now) x 0) 0 0) 0) }
{
    match u32::try_from(x) {
        Ok(y) => Ok(value_at(
            vals.as_slice()[x].as_slice(),
            first_place(vals, doms, y) as usize,
        )),
        Err(_) => Err(Memory),
    }
}

/// The value of each variable at its first alive place.
fn values_at<C: Constraints, D: Alive>(alloc: Global, all: &C, doms: &D) -> Result<Assign2, Memory>
    requires { IsFit (C.system all.now).vals (D.family doms.now) }
    ensures { IfOk result (λ values.
        values ≡ valued (C.system all.now)
        (solution (problem (C.system all.now)) (D.family doms.now))) }
{
    let vals = all.vals();
    let mut values = List::new(alloc);
    for x in 0..vals.len() {
        values.push(value_of(vals, doms, x)?)?;
    }
    Ok(values)
}

/// The first solution in canonical order, where the need is within the budget; or a refutation; or
/// that it isn't.
pub fn solve<C: Constraints>(alloc: Global, all: &C, d: &Doms, budget: u64) -> Result<Found, Memory>
    requires sets { AreSets 64 d.now.alive }
    requires fit { IsFit (C.system all.now).vals (among d.now.alive) }
    requires filled { Filled (length (C.system all.now).vals) (among d.now.alive) }
    ensures { IfOk result (Answers (C.system all.now) (among d.now.alive) budget) }
{
    let net = Net::new(alloc, all)?;
    let mut trail = Trail::<1>::new(alloc, d)?;
    let room = room_of(all, &trail)?;
    let mut frames = Frames::new(alloc, room)?;
    let mut log = List::new(alloc);
    let mut nodes = List::new(alloc);
    match search(
        alloc,
        all,
        &net,
        &mut trail,
        &mut frames,
        &mut log,
        &mut nodes,
        budget,
    )? {
        End::Solved { left: _ } => Ok(Found::Solution(values_at(alloc, all, &trail)?)),
        End::Nothing { left: _ } => Ok(Found::Refutation(Tree { nodes })),
        End::Budget => Ok(Found::Budget { counted: budget }),
    }
}
