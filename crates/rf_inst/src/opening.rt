ghost use Rattle.std.specs.Prelude.{◌≡◌, ◌≤◌, ◌∷◌, ◌++◌, IfOk, OnOk, [], cond, eqb, length};
ghost use Rattle.rf_inst.specs.Agreeing.{Agrees};
ghost use Rattle.rf_inst.specs.Opening.{all_places, places_of, opening};

use crate::Inst;
use rf_facts::PropTable;
use rf_form::Doms;
use rf_text::{List, Memory};
use std::alloc::Global;

/// All places of a domain.
fn every_place(alloc: Global, values: &[u32]) -> Result<List<u16>, Memory>
    requires { length values.now ≤ 65536 }
    ensures { IfOk result (λ places. places ≡ all_places values.now) }
{
    let mut places = List::new(alloc);
    for place in 0..values.len() {
        places.push(place as u16)?;
    }
    Ok(places)
}

/// The place, where it passes.
fn keep(places: &mut List<u16>, passes: bool, place: u16) -> Result<(), Memory>
    ensures { OnOk result (places.new ≡ places.old ++ cond passes (place ∷ []) []) }
{
    if passes {
        places.push(place)?;
    }
    Ok(())
}

/// The place of a value.
fn place_of(alloc: Global, value: u32, values: &[u32]) -> Result<List<u16>, Memory>
    requires { length values.now ≤ 65536 }
    ensures { IfOk result (λ places. places ≡ places_of value values.now) }
{
    let mut places = List::new(alloc);
    for place in 0..values.len() {
        keep(&mut places, values[place] == value, place as u16)?;
    }
    Ok(places)
}

/// The domain of a variable, which has the forced value alone where it is the first one.
fn domain(alloc: Global, x: usize, forced: u32, values: &[u32]) -> Result<List<u16>, Memory>
    requires { length values.now ≤ 65536 }
    ensures { IfOk result (λ places. places
        ≡ cond (eqb x 0) (places_of forced values.now) (all_places values.now)) }
{
    if x == 0 {
        return place_of(alloc, forced, values);
    }
    every_place(alloc, values)
}

/// The opening domains: all places, but for the first variable the place of the forced value alone.
pub fn first_doms(alloc: Global, i: &Inst, t: &PropTable) -> Result<Doms, Memory>
    requires { Agrees i.now t.now }
    ensures { IfOk result (λ doms. doms.alive ≡ opening t.now.forced i.now.vals) }
{
    let mut alive = List::new(alloc);
    for x in 0..i.vals.len() {
        let places = domain(alloc, x, t.forced, i.vals.as_slice()[x].as_slice())?;
        alive.push(places)?;
    }
    Ok(Doms { alive })
}
