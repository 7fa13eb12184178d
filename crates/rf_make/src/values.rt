//! What is compared in a body stands for, at the numbers of its variables.
ghost use Rattle.std.specs.Prelude.{◌≡◌, map};
ghost use Rattle.rf_inst.specs.Directs.{World, slot_value};
ghost use Rattle.rf_inst.specs.Values.{named as spec_named};
ghost use Rattle.rf_join.specs.Joins.{number_at as spec_number_at};
ghost use Rattle.rf_bodies.specs.Bodies.{value_at};
ghost use Rattle.rf_make.specs.Indexes.{IsIndex};
ghost use Rattle.rf_make.specs.Meanings.{meant};

use crate::indexes::Index;
use crate::meanings::Meaning;
use rf_bodies::Operand;
use rf_form::Term;

/// The number of the variable at a place.
pub fn number_at(taken: &[u32], place: u32) -> u32
    ensures { result ≡ spec_number_at taken.now place }
{
    taken.get(place as usize).copied().unwrap_or(0)
}

/// A text or an access by its place.
fn named(value: Option<u32>) -> Meaning
    ensures { meant result ≡ spec_named value }
{
    match value {
        Some(place) => Meaning::Known(Term::Const(place)),
        None => Meaning::Unnamed,
    }
}

/// What an operand stands for, in each world with the table of the index.
pub fn value_of(index: &Index, operand: Operand, taken: &[u32]) -> Meaning
    ensures { (world : World) → IsIndex world.table index.now →
        meant result ≡ value_at world taken.now operand }
{
    match operand {
        Operand::Now { place, prop } => index.now(prop, number_at(taken, place)),
        Operand::Old { place, prop } => index.old(prop, number_at(taken, place)),
        Operand::Element(place) => Meaning::Known(Term::Const(number_at(taken, place))),
        Operand::Fixed(value) => named(value),
    }
}

/// The import of the type at the second place by the unit at the first.
pub fn slot_of(index: &Index, places: &[u32], taken: &[u32]) -> Meaning
    ensures { (world : World) → IsIndex world.table index.now →
        meant result ≡ slot_value world (map (spec_number_at taken.now) places.now) }
{
    if places.len() < 2 {
        return Meaning::Missing;
    }
    let unit = number_at(taken, places[0]);
    let of = number_at(taken, places[1]);
    index.slot(unit, of)
}
