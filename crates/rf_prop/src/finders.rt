ghost use Rattle.std.specs.Prelude.{◌≡◌, ◌<◌, ℕ, true, MatchOption, length};
ghost use Rattle.rf_form.specs.Alive.{IsFit, is_among};
ghost use Rattle.rf_form.specs.Families.{at};
ghost use Rattle.rf_form.specs.Truths.{row};
ghost use Rattle.rf_cons.specs.Systems.{System, IsFalse};

use rf_cons::{Constraints, is_false_at};
use rf_form::Alive;

/// A place to cut.
#[derive(Clone, Copy)]
pub struct Place {
    pub x: u32,
    pub v: u16,
}

/// How many places the variable has.
fn width_of<C: Constraints>(all: &C, x: u32) -> usize
    ensures { result ≡ length (row (C.system all.now).vals x) }
{
    let x = x as usize;
    let vals = all.vals();
    if x < vals.len() {
        vals.as_slice()[x].len()
    } else {
        0
    }
}

/// An alive place of the variable with which the constraint is false.
fn find_value<C: Constraints, D: Alive>(all: &C, place: usize, doms: &D, x: u32) -> Option<u16>
    requires inside { place < length (C.system all.now).formulas }
    requires fit { IsFit (C.system all.now).vals (D.family doms.now) }
    ensures { MatchOption result
        ((v : ℕ) → D.family doms.now x v ≡ true →
        IsFalse (C.system all.now) (at (D.family doms.now) x v) place → ⊥)
        (λ v. (D.family doms.now x v ≡ true) ×
        IsFalse (C.system all.now) (at (D.family doms.now) x v) place) }
{
    for v in 0..width_of(all, x) {
        let v = v as u16;
        if doms.has(x, v) {
            if is_false_at(all, place, doms, x, v) {
                return Some(v);
            }
        }
    }
    None
}

/// An alive place of one of the variables with which the constraint is false.
pub fn find_cut<C: Constraints, D: Alive>(
    all: &C,
    place: usize,
    doms: &D,
    vars: &[u32],
) -> Option<Place>
    requires inside { place < length (C.system all.now).formulas }
    requires fit { IsFit (C.system all.now).vals (D.family doms.now) }
    ensures { MatchOption result
        ((x v : ℕ) → is_among x vars.now ≡ true → D.family doms.now x v ≡ true →
        IsFalse (C.system all.now) (at (D.family doms.now) x v) place → ⊥)
        (λ cut. (D.family doms.now cut.x cut.v ≡ true) ×
        IsFalse (C.system all.now) (at (D.family doms.now) cut.x cut.v) place) }
{
    for x in vars {
        match find_value(all, place, doms, *x) {
            Some(v) => return Some(Place { x: *x, v }),
            None => {}
        }
    }
    None
}
