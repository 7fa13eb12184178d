//! The Booleans of derived predicates.
ghost use Rattle.std.specs.Prelude.{◌≡◌, map, slice_get, Some, IfOk};
ghost use Rattle.rf_inst.specs.Directs.{World, at_tuple, boolean as spec_boolean};
ghost use Rattle.rf_join.specs.Joins.{number_at as spec_number_at};
ghost use Rattle.rf_join.specs.Sources.{whole};
ghost use Rattle.rf_make.specs.Makers.{IsReady, Knows};
ghost use Rattle.rf_make.specs.Meanings.{meant};

use crate::makers::Maker;
use crate::meanings::Meaning;
use crate::values::number_at;
use rf_form::Term;
use rf_text::{List, Memory};
use std::alloc::Global;

/// What is asked of a tuple: the numbers of the variables at places.
fn asked_at(alloc: Global, places: &[u32], taken: &[u32]) -> Result<List<Option<u32>>, Memory>
    ensures { IfOk result (λ partial. partial ≡ whole taken.now places.now) }
{
    let mut partial = List::with_capacity(alloc, places.len())?;
    for place in places {
        let number = number_at(taken, *place);
        partial.push(Some(number))?;
    }
    Ok(partial)
}

/// The variable so many places behind the first one.
fn behind(base: u32, place: u64) -> Result<Meaning, Memory>
    ensures { IfOk result (λ meaning. meant meaning ≡ at_tuple base (Some place)) }
{
    let room = u32::MAX - base;
    if place > u64::from(room) {
        return Err(Memory);
    }
    Ok(Meaning::Known(Term::Var(base + place as u32)))
}

/// The variable of the first of the places, if there is one.
fn first_behind(base: u32, found: &[u64]) -> Result<Meaning, Memory>
    ensures { IfOk result (λ meaning. meant meaning ≡ at_tuple base (slice_get found.now 0)) }
{
    if found.is_empty() {
        return Ok(Meaning::Missing);
    }
    behind(base, found[0])
}

/// The Boolean of a derived predicate at the numbers of places.
pub fn boolean(maker: &Maker, which: u32, places: &[u32], taken: &[u32]) -> Result<Meaning, Memory>
    requires { IsReady maker.now }
    ensures { IfOk result (λ meaning. (world : World) → Knows maker.now world →
        meant meaning ≡ spec_boolean (slice_get world.derived which)
        (map (spec_number_at taken.now) places.now)) }
{
    if which as usize >= maker.bases.len() {
        return Ok(Meaning::Missing);
    }
    let base = maker.bases[which as usize];
    let partial = asked_at(maker.alloc, places, taken)?;
    let found = maker
        .derived
        .matches(maker.alloc, which, partial.as_slice())?;
    first_behind(base, found.as_slice())
}
