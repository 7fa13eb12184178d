ghost use Rattle.std.specs.Prelude.{◌≡◌, [], MatchOption, length};
ghost use Rattle.rf_form.specs.Alive.{IsFit};
ghost use Rattle.rf_form.specs.Truths.{row};
ghost use Rattle.rf_refute.specs.Stacks.{values_from, IsNext};

use rf_form::{Alive, Vals};

/// How many places the variable has.
#[tactic(auto, using(std::proofs::lemmas::List::get_or_default))]
pub fn width_of(vals: &Vals, x: u32) -> usize
    ensures { result ≡ length (row vals.now x) }
{
    let x = x as usize;
    if x < vals.len() {
        vals.as_slice()[x].len()
    } else {
        0
    }
}

/// The first alive place of the variable from there on.
pub fn next_from<D: Alive>(vals: &Vals, doms: &D, x: u32, from: u32) -> Option<u16>
    requires { IsFit vals.now (D.family doms.now) }
    ensures { MatchOption result
        (values_from vals.now (D.family doms.now) x from ≡ [])
        (IsNext vals.now (D.family doms.now) x from) }
{
    for v in from as usize..width_of(vals, x) {
        let v = v as u16;
        if doms.has(x, v) {
            return Some(v);
        }
    }
    None
}
