ghost use Rattle.std.specs.Prelude.{◌≡◌, ◌<◌, ◌+◌, EachIndex, slice_index};
ghost use Rattle.rf_form.specs.Alive.{is_among, among, Counts};
ghost use Rattle.rf_form.specs.Families.{Family, at};
ghost use Rattle.rf_form.specs.Sums.{sum_below, bit};

use crate::rows::places_of;
use rf_text::List;

/// Domains, seen as a family: which place of which variable is alive.
pub trait Alive {
    ghost family: { Self → Family };

    /// Whether the place is alive. Nothing is alive beyond the first domain.
    fn has(&self, x: u32, v: u16) -> bool
        ensures { result ≡ Self.family self.now x v };

    /// How many places are alive.
    fn size(&self, x: u32) -> u32
        ensures { Counts (Self.family self.now) x result };
}

/// The places that are alive, variable by variable.
#[derive(Drop)]
pub struct Doms {
    pub alive: List<List<u16>>,
}

/// The domains in which x has the place v alone.
#[derive(Drop)]
pub struct At<'a, D> {
    pub dom: &'a D,
    pub x: u32,
    pub v: u16,
}

/// Whether the place is in the row.
fn is_in(row: &[u16], v: u16) -> bool
    ensures { result ≡ is_among v row.now }
{
    for w in row {
        if v == *w {
            return true;
        }
    }
    false
}

/// A number above all places of the row.
fn bound_of(row: &[u16]) -> u32
    ensures within { EachIndex row.now (λ k. slice_index row.now k < result) }
    ensures small { result < 65537 }
{
    let mut bound = 0;
    for v in row {
        bound = bound.max(u32::from(*v) + 1);
    }
    bound
}

/// How many places below the bound are in the row.
fn count_in(row: &[u16], bound: u32) -> u32
    requires { bound < 65537 }
    ensures { result ≡ sum_below (λ v. bit (is_among v row.now)) bound }
{
    let mut count: u32 = 0;
    for v in 0..bound {
        if is_in(row, v as u16) {
            count += 1;
        }
    }
    count
}

impl Alive for Doms {
    ghost family = { λ doms. among doms.alive };

    fn has(&self, x: u32, v: u16) -> bool {
        is_in(places_of(&self.alive, x), v)
    }

    fn size(&self, x: u32) -> u32 {
        let row = places_of(&self.alive, x);
        count_in(row, bound_of(row))
    }
}

impl<'a, D: Alive> Alive for At<'a, D> {
    ghost family = { λ here. at (D.family here.dom.now) here.x here.v };

    fn has(&self, x: u32, v: u16) -> bool {
        if self.x == x {
            self.v == v
        } else {
            self.dom.has(x, v)
        }
    }

    fn size(&self, x: u32) -> u32 {
        if self.x == x { 1 } else { self.dom.size(x) }
    }
}
