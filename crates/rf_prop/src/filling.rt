ghost use Rattle.std.specs.Prelude.{◌≡◌, MatchBool};
ghost use Rattle.rf_form.specs.Alive.{among};
ghost use Rattle.rf_form.specs.Families.{Filled};
ghost use Rattle.rf_form.specs.Truths.{row};

use rf_form::Doms;

/// Whether each of the first domains has a place.
pub fn are_filled(doms: &Doms, count: usize) -> bool
    ensures { MatchBool result
        (Filled count (among doms.now.alive)) (Filled count (among doms.now.alive) → ⊥) }
{
    for x in 0..count {
        if x >= doms.alive.len() {
            return false;
        }
        if doms.alive.as_slice()[x].is_empty() {
            return false;
        }
    }
    true
}
