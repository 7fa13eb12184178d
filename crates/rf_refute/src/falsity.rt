ghost use Rattle.std.specs.Prelude.{◌≡◌, ◌<◌, ℕ, MatchBool, MatchOption, length};
ghost use Rattle.rf_form.specs.Alive.{IsFit};
ghost use Rattle.rf_cons.specs.Systems.{System, FalseAt};
ghost use Rattle.rf_refute.specs.Numbers.{Rises};

use rf_cons::{Constraints, is_false};
use rf_form::Alive;

/// The place of the constraint with that number.
fn find_place<C: Constraints>(all: &C, number: u64) -> Option<usize>
    requires { Rises (C.system all.now) }
    ensures { MatchOption result
        ((place : ℕ) → place < length (C.system all.now).formulas →
        (C.system all.now).numbers place ≡ number → ⊥)
        (λ place. (place < length (C.system all.now).formulas)
        × ((C.system all.now).numbers place ≡ number)) }
{
    let mut low = 0;
    let mut high = all.count();
    while low < high {
        let mid = low + (high - low) / 2;
        let here = all.number(mid);
        if here == number {
            return Some(mid);
        }
        if here < number {
            low = mid + 1;
            continue;
        }
        high = mid;
    }
    None
}

/// Whether the constraint with that number is false under the domains.
pub fn fails<C: Constraints, D: Alive>(all: &C, number: u64, doms: &D) -> bool
    requires rising { Rises (C.system all.now) }
    requires fit { IsFit (C.system all.now).vals (D.family doms.now) }
    ensures { MatchBool result
        (FalseAt (C.system all.now) (D.family doms.now) number)
        (FalseAt (C.system all.now) (D.family doms.now) number → ⊥) }
{
    match find_place(all, number) {
        None => false,
        Some(place) => is_false(all, place, doms),
    }
}
