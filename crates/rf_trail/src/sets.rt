ghost use Rattle.std.specs.Prelude.{◌≡◌, ◌*◌, ◌≤◌, ℕ, IfOk, length, MatchBool};
ghost use Rattle.std.specs.List.{sum_by};
ghost use Rattle.rf_form.specs.Alive.{is_among, among};
ghost use Rattle.rf_trail.specs.Trails.{IsSet, AreSets};

use crate::bitdom::BitDom;
use rf_text::{List, Memory};
use std::alloc::Global;

/// The set of the places.
fn filled<const W: usize>(places: &[u16]) -> BitDom<W>
    requires { IsSet (64 * W) places.now }
    ensures same { (v : ℕ) → is_among v result ≡ is_among v places.now }
    ensures size { length result ≡ length places.now }
{
    let mut dom = BitDom::empty();
    for v in places {
        dom.put(*v);
    }
    dom
}

/// The sets of the rows.
pub fn sets_of<const W: usize>(alloc: Global, rows: &[List<u16>]) -> Result<Vec<BitDom<W>>, Memory>
    requires { AreSets (64 * W) rows.now }
    ensures same { IfOk result (λ doms. (x v : ℕ) → among doms.items x v ≡ among rows.now x v) }
    ensures size { IfOk result (λ doms. sum_by length doms.items ≡ sum_by length rows.now) }
{
    let mut doms = Vec::with_capacity(alloc, rows.len())?;
    for row in rows {
        doms.push(filled(row.as_slice()))?;
    }
    Ok(doms)
}

/// How many places there are in all rows.
pub fn room_of(rows: &[List<u16>]) -> Result<usize, Memory>
    ensures { IfOk result (λ room. room ≡ sum_by length rows.now) }
{
    let mut room: usize = 0;
    for row in rows {
        match room.checked_add(row.len()) {
            Some(more) => room = more,
            None => return Err(Memory),
        }
    }
    Ok(room)
}

/// Whether the places are distinct, and below 64 * W.
fn is_set<const W: usize>(places: &[u16]) -> bool
    requires { W ≤ 1024 }
    ensures { MatchBool result (IsSet (64 * W) places.now) (IsSet (64 * W) places.now → ⊥) }
{
    let mut dom: BitDom<W> = BitDom::empty();
    for v in places {
        if *v as usize / 64 >= W {
            return false;
        }
        if dom.has(*v) {
            return false;
        }
        dom.put(*v);
    }
    true
}

/// Whether that holds of the places of each row.
pub fn are_sets<const W: usize>(rows: &[List<u16>]) -> bool
    requires { W ≤ 1024 }
    ensures { MatchBool result (AreSets (64 * W) rows.now) (AreSets (64 * W) rows.now → ⊥) }
{
    for row in rows {
        if !is_set::<W>(row.as_slice()) {
            return false;
        }
    }
    true
}
