ghost use Rattle.std.specs.Prelude.{◌≡◌, ◌<◌, MatchBool, length};
ghost use Rattle.rf_form.specs.Alive.{IsFit, among};
ghost use Rattle.rf_form.specs.Fitting.{are_below, AreShort};
ghost use Rattle.rf_form.specs.Truths.{row};

use crate::{Doms, Vals};
use rf_text::List;

/// How many values the variable has.
#[tactic(auto, using(std::proofs::lemmas::List::get_or_default))]
fn width_of(vals: &Vals, x: usize) -> usize
    ensures { result ≡ length (row vals.now x) }
{
    if x < vals.len() {
        vals.as_slice()[x].len()
    } else {
        0
    }
}

/// Whether no variable has more values than a place can tell.
fn is_short(vals: &Vals) -> bool
    ensures { MatchBool result (AreShort vals.now) (AreShort vals.now → ⊥) }
{
    for x in 0..vals.len() {
        if width_of(vals, x) > 65536 {
            return false;
        }
    }
    true
}

/// Whether all places of the row are below the bound.
fn is_below(places: &[u16], bound: usize) -> bool
    ensures { result ≡ are_below bound places.now }
{
    for v in places {
        if *v as usize >= bound {
            return false;
        }
    }
    true
}

#[tactic(auto, using(std::proofs::lemmas::List::get_or_default))]
fn is_row_below(rows: &List<List<u16>>, x: usize, bound: usize) -> bool
    requires { x < length rows.now }
    ensures { result ≡ are_below bound (row rows.now x) }
{
    is_below(rows.as_slice()[x].as_slice(), bound)
}

impl Doms {
    /// Whether all places that are alive are places of the first domains, so that formulas may be evaluated under them.
    pub fn fits(&self, vals: &Vals) -> bool
        ensures { MatchBool result
            (IsFit vals.now (among self.now.alive)) (IsFit vals.now (among self.now.alive) → ⊥) }
    {
        if !is_short(vals) {
            return false;
        }
        for x in 0..self.alive.len() {
            if !is_row_below(&self.alive, x, width_of(vals, x)) {
                return false;
            }
        }
        true
    }
}
