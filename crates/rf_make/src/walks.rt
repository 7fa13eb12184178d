//! The formula of a body at numbers, from the left, where nothing that is decided is kept.
ghost use Rattle.std.specs.Prelude.{◌≡◌, map, IfOk};
ghost use Rattle.rf_inst.specs.Directs.{constant_form};
ghost use Rattle.rf_form.specs.Shown.{form_of, listed};
ghost use Rattle.rf_bodies.specs.Bodies.{at_numbers};
ghost use Rattle.rf_bodies.specs.Gathered.{whole};
ghost use Rattle.rf_make.specs.Makers.{IsReady, Tells};

use crate::atoms::{atom, is_one};
use crate::booleans::boolean;
use crate::kept::tuples;
use crate::makers::Maker;
use crate::values::{slot_of, value_of};
use rf_bodies::{
    Body, Gathered, Many, add, both_of, either_of, finished, is_false, is_true, negated,
};
use rf_form::Form;
use rf_text::{List, Memory};

#[tactic(auto, using(rf_form::proofs::Shows::shows))]
fn constant(value: bool) -> Form
    ensures { form_of result ≡ constant_form value }
{
    if value { Form::True } else { Form::False }
}

/// The formula of a quantifier with these tuples: it is left where it is decided.
#[cycle(makes)]
fn gather(maker: &Maker, many: &Many, found: &[List<u32>], all: bool) -> Result<Form, Memory>
    requires { IsReady maker.now }
    ensures { IfOk result (λ form. Tells maker.now form
        (λ world. whole all (listed (map (at_numbers world many.now.body) found.now)))) }
{
    let mut gathered = Gathered {
        all,
        decided: false,
        forms: List::new(maker.alloc),
    };
    for numbers in found {
        let form = make(maker, many.body.get(), numbers.as_slice())?;
        add(&mut gathered, form)?;
        if gathered.decided {
            return Ok(finished(gathered));
        }
    }
    Ok(finished(gathered))
}

/// The formula of a body at numbers. Where the left of two decides, the right one isn't looked at.
#[cycle(makes)]
pub fn make(maker: &Maker, body: &Body, taken: &[u32]) -> Result<Form, Memory>
    requires { IsReady maker.now }
    ensures { IfOk result (λ form. Tells maker.now form
        (λ world. at_numbers world body.now taken.now)) }
{
    match body {
        Body::Implies(left, right) => {
            let left = make(maker, left.get(), taken)?;
            let denied = negated(maker.alloc, left)?;
            if is_true(&denied) {
                return Ok(denied);
            }
            let right = make(maker, right.get(), taken)?;
            either_of(maker.alloc, denied, right)
        }
        Body::Or(left, right) => {
            let left = make(maker, left.get(), taken)?;
            if is_true(&left) {
                return Ok(left);
            }
            let right = make(maker, right.get(), taken)?;
            either_of(maker.alloc, left, right)
        }
        Body::And(left, right) => {
            let left = make(maker, left.get(), taken)?;
            if is_false(&left) {
                return Ok(left);
            }
            let right = make(maker, right.get(), taken)?;
            both_of(maker.alloc, left, right)
        }
        Body::Not(inner) => {
            let inner = make(maker, inner.get(), taken)?;
            negated(maker.alloc, inner)
        }
        Body::Every(many) => {
            let found = tuples(maker, many.ranges.as_slice(), many.asks.as_slice(), taken)?;
            gather(maker, many, found.as_slice(), true)
        }
        Body::Exists(many) => {
            let found = tuples(maker, many.ranges.as_slice(), many.asks.as_slice(), taken)?;
            gather(maker, many, found.as_slice(), false)
        }
        Body::Truth(value) => Ok(constant(*value)),
        Body::Slot(places) => Ok(is_one(slot_of(maker.index, places.as_slice(), taken))),
        Body::Derived(which, places) => {
            let value = boolean(maker, *which, places.as_slice(), taken)?;
            Ok(is_one(value))
        }
        Body::Compare(left, how, right) => {
            let left = value_of(maker.index, *left, taken);
            let right = value_of(maker.index, *right, taken);
            atom(maker.alloc, left, *how, right)
        }
    }
}
