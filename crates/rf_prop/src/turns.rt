ghost use Rattle.std.specs.Prelude.{◌≡◌, ◌<◌, ℕ, true, OnOk, IfOk, length};
ghost use Rattle.rf_form.specs.Alive.{IsFit, is_among};
ghost use Rattle.rf_form.specs.Constraints.{formula_at};
ghost use Rattle.rf_form.specs.Families.{at};
ghost use Rattle.rf_form.specs.Mentions.{mentions};
ghost use Rattle.rf_cons.specs.Systems.{System, IsFalse};
ghost use Rattle.rf_prop.specs.Cuts.{Logged};
ghost use Rattle.rf_prop.specs.Turns.{Turned};
ghost use Rattle.rf_prop.specs.Weights.{alive_places};

use crate::finders::{Place, find_cut};
use crate::steps::{Step, Turn};
use rf_cons::{Constraints, is_false};
use rf_text::{List, Memory};
use rf_trail::Store;

/// Takes one place away, and logs it.
fn take_away<C: Constraints, S: Store>(
    all: &C,
    place: usize,
    cut: Place,
    store: &mut S,
    log: &mut List<Step>,
) -> Result<(), Memory>
    requires inside { place < length (C.system all.now).formulas }
    requires fit { IsFit (C.system all.now).vals (S.family store.old) }
    requires holds { IsFalse (C.system all.now) (S.family store.old) place → ⊥ }
    requires alive { S.family store.old cut.x cut.v ≡ true }
    requires fails { IsFalse (C.system all.now) (at (S.family store.old) cut.x cut.v) place }
    ensures first { S.first store.new ≡ S.first store.old }
    ensures fit { IsFit (C.system all.now).vals (S.family store.new) }
    ensures logged { Logged (C.system all.now)
        (S.family store.old) (S.removed store.old) log.old
        (S.family store.new) (S.removed store.new) log.new }
    ensures lighter { OnOk result (
        alive_places (C.system all.now) (S.family store.new)
        < alive_places (C.system all.now) (S.family store.old)) }
{
    log.push(Step {
        x: cut.x,
        v: cut.v,
        c: all.number(place),
    })?;
    store.remove(cut.x, cut.v);
    Ok(())
}

/// A turn of the constraint at that place: takes away what it is false with, until nothing is left to take or it is false
/// itself. `vars` has its variables. After want of memory the removals stand.
pub fn turn<C: Constraints, S: Store>(
    all: &C,
    place: usize,
    vars: &[u32],
    store: &mut S,
    log: &mut List<Step>,
) -> Result<Turn, Memory>
    requires inside { place < length (C.system all.now).formulas }
    requires vars { (x : ℕ) → x < length (C.system all.now).vals →
        mentions (formula_at (C.system all.now).formulas place) x ≡ true →
        is_among x vars.now ≡ true }
    requires fit { IsFit (C.system all.now).vals (S.family store.old) }
    ensures first { S.first store.new ≡ S.first store.old }
    ensures fit { IsFit (C.system all.now).vals (S.family store.new) }
    ensures logged { Logged (C.system all.now)
        (S.family store.old) (S.removed store.old) log.old
        (S.family store.new) (S.removed store.new) log.new }
    ensures turned { IfOk result (λ turn.
        Turned (C.system all.now) (S.family store.new) place turn) }
{
    loop {
        if is_false(all, place, store) {
            return Ok(Turn::Fail);
        }
        match find_cut(all, place, store, vars) {
            None => return Ok(Turn::Rest),
            Some(cut) => take_away(all, place, cut, store, log)?,
        }
    }
}
