ghost use Rattle.std.specs.Prelude.{◌≡◌, ◌≤◌, ℕ, true, not, ◌&&◌, eqb, leb, ltb, length, take};
ghost use Rattle.rf_form.specs.Alive.{IsFit};
ghost use Rattle.rf_form.specs.Families.{at, without};
ghost use Rattle.rf_trail.specs.Removals.{left};
ghost use Rattle.rf_refute.specs.Stacks.{Grown};

use crate::values::width_of;
use rf_form::Vals;
use rf_trail::{Mark, Store};

/// Takes the place away if it is alive.
fn take_alive<S: Store>(store: &mut S, x: u32, v: u16)
    ensures first { S.first store.new ≡ S.first store.old }
    ensures grown { Grown (S.removed store.old) (S.removed store.new) }
    ensures family { S.family store.new ≡ without (S.family store.old) x v }
{
    if !store.has(x, v) {
        return;
    }
    store.remove(x, v);
}

/// Takes away the alive places of the variable from there up to before the end.
fn take_range<S: Store>(store: &mut S, x: u32, from: u32, end: u32)
    requires ordered { from ≤ end }
    requires short { end ≤ 65536 }
    ensures first { S.first store.new ≡ S.first store.old }
    ensures grown { Grown (S.removed store.old) (S.removed store.new) }
    ensures family { (y w : ℕ) → S.family store.new y w
        ≡ (S.family store.old y w && not (eqb x y && (leb from w && ltb w end))) }
{
    for v in from..end {
        take_alive(store, x, v as u16);
    }
}

/// Takes away all places of the variable but that one.
pub fn keep_only<S: Store>(vals: &Vals, store: &mut S, x: u32, v: u16)
    requires fit { IsFit vals.now (S.family store.old) }
    requires alive { S.family store.old x v ≡ true }
    ensures first { S.first store.new ≡ S.first store.old }
    ensures grown { Grown (S.removed store.old) (S.removed store.new) }
    ensures family { S.family store.new ≡ at (S.family store.old) x v }
{
    let width = width_of(vals, x) as u32;
    take_range(store, x, 0, v as u32);
    take_range(store, x, v as u32 + 1, width);
}

/// Goes back to where there were so many removals.
pub fn go_back<S: Store>(store: &mut S, at: u64)
    requires { at ≤ length (S.removed store.old) }
    ensures first { S.first store.new ≡ S.first store.old }
    ensures removed { S.removed store.new ≡ take at (S.removed store.old) }
    ensures family { S.family store.new ≡ left (S.first store.old) (take at (S.removed store.old)) }
{
    store.back(Mark { at });
}
