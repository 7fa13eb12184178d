ghost use Rattle.std.specs.Prelude.{◌≡◌, ◌<◌, true, MatchBool, length};
ghost use Rattle.rf_form.specs.Alive.{IsFit};
ghost use Rattle.rf_form.specs.Families.{at};
ghost use Rattle.rf_cons.specs.Systems.{System, IsFalse};

use crate::Constraints;
use rf_form::{Alive, At, Tri, eval3};

/// Whether the constraint at that place is false under the domains.
pub fn is_false<C: Constraints, D: Alive>(all: &C, place: usize, doms: &D) -> bool
    requires inside { place < length (C.system all.now).formulas }
    requires fit { IsFit (C.system all.now).vals (D.family doms.now) }
    ensures { MatchBool result
        (IsFalse (C.system all.now) (D.family doms.now) place)
        (IsFalse (C.system all.now) (D.family doms.now) place → ⊥) }
{
    match eval3(all.form(place), all.vals(), doms) {
        Tri::False => true,
        Tri::True => false,
        Tri::Unknown => false,
    }
}

/// Whether it is with the variable at that place alone.
pub fn is_false_at<C: Constraints, D: Alive>(
    all: &C,
    place: usize,
    doms: &D,
    x: u32,
    v: u16,
) -> bool
    requires inside { place < length (C.system all.now).formulas }
    requires fit { IsFit (C.system all.now).vals (D.family doms.now) }
    requires alive { D.family doms.now x v ≡ true }
    ensures { MatchBool result
        (IsFalse (C.system all.now) (at (D.family doms.now) x v) place)
        (IsFalse (C.system all.now) (at (D.family doms.now) x v) place → ⊥) }
{
    let here = At { dom: doms, x, v };
    is_false(all, place, &here)
}
