ghost use Rattle.std.specs.Prelude.{◌≡◌, ◌<◌, ◌+◌, IfOk, MatchOption, length};
ghost use Rattle.rf_form.specs.Alive.{IsFit};
ghost use Rattle.rf_form.specs.Families.{Filled};
ghost use Rattle.rf_cons.specs.Systems.{System, FalseAt};
ghost use Rattle.rf_prop.specs.Cuts.{Logged};
ghost use Rattle.rf_prop.specs.Queues.{Wired, AllReady, variable_at};
ghost use Rattle.rf_prop.specs.Turns.{Closes};

use crate::nets::{Net, row_of};
use crate::steps::{Outcome, Step, Turn};
use crate::turns::turn;
use rf_cons::Constraints;
use rf_text::{List, Memory};
use rf_trail::Store;
use std::alloc::Global;

/// A turn of each constraint, up to the first that is false: its number.
fn start<C: Constraints, S: Store>(
    all: &C,
    net: &Net,
    store: &mut S,
    log: &mut List<Step>,
) -> Result<Option<u64>, Memory>
    requires wired { Wired (C.system all.now) net.now.vars net.now.watchers }
    requires fit { IsFit (C.system all.now).vals (S.family store.old) }
    ensures first { S.first store.new ≡ S.first store.old }
    ensures fit { IsFit (C.system all.now).vals (S.family store.new) }
    ensures logged { Logged (C.system all.now)
        (S.family store.old) (S.removed store.old) log.old
        (S.family store.new) (S.removed store.new) log.new }
    ensures ready { IfOk result (λ failed. MatchOption failed
        (AllReady (C.system all.now) (S.family store.new) log.new (length log.old))
        (FalseAt (C.system all.now) (S.family store.new))) }
{
    for place in 0..all.count() {
        match turn(all, place, row_of(&net.vars, place), store, log)? {
            Turn::Rest => {}
            Turn::Fail => return Ok(Some(all.number(place))),
        }
    }
    Ok(None)
}

/// A turn of each constraint that the step at that place wakes, up to the first that is false: its number.
fn wake<C: Constraints, S: Store>(
    all: &C,
    net: &Net,
    done: usize,
    store: &mut S,
    log: &mut List<Step>,
) -> Result<Option<u64>, Memory>
    requires inside { done < length log.old }
    requires wired { Wired (C.system all.now) net.now.vars net.now.watchers }
    requires fit { IsFit (C.system all.now).vals (S.family store.old) }
    requires variable { variable_at log.old done < length (C.system all.now).vals }
    requires ready { AllReady (C.system all.now) (S.family store.old) log.old done }
    ensures first { S.first store.new ≡ S.first store.old }
    ensures fit { IsFit (C.system all.now).vals (S.family store.new) }
    ensures logged { Logged (C.system all.now)
        (S.family store.old) (S.removed store.old) log.old
        (S.family store.new) (S.removed store.new) log.new }
    ensures ready { IfOk result (λ failed. MatchOption failed
        (AllReady (C.system all.now) (S.family store.new) log.new (done + 1))
        (FalseAt (C.system all.now) (S.family store.new))) }
{
    let x = log.as_slice()[done].x;
    for place in row_of(&net.watchers, x as usize) {
        let place = *place as usize;
        match turn(all, place, row_of(&net.vars, place), store, log)? {
            Turn::Rest => {}
            Turn::Fail => return Ok(Some(all.number(place))),
        }
    }
    Ok(None)
}

/// Closes the domains. The steps that are logged are the queue: each wakes the constraints that mention its variable.
pub fn close_in<C: Constraints, S: Store>(
    all: &C,
    net: &Net,
    store: &mut S,
    log: &mut List<Step>,
) -> Result<Outcome, Memory>
    requires wired { Wired (C.system all.now) net.now.vars net.now.watchers }
    requires fit { IsFit (C.system all.now).vals (S.family store.old) }
    requires filled { Filled (length (C.system all.now).vals) (S.family store.old) }
    ensures first { S.first store.new ≡ S.first store.old }
    ensures fit { IsFit (C.system all.now).vals (S.family store.new) }
    ensures filled { Filled (length (C.system all.now).vals) (S.family store.new) }
    ensures logged { Logged (C.system all.now)
        (S.family store.old) (S.removed store.old) log.old
        (S.family store.new) (S.removed store.new) log.new }
    ensures closes { IfOk result
        (Closes (C.system all.now) (S.family store.old) (S.family store.new)) }
{
    let mut done = log.len();
    match start(all, net, store, log)? {
        Some(c) => return Ok(Outcome::Empty { c }),
        None => {}
    }
    while done < log.len() {
        match wake(all, net, done, store, log)? {
            Some(c) => return Ok(Outcome::Empty { c }),
            None => {}
        }
        done += 1;
    }
    Ok(Outcome::Closed)
}

/// Closes the domains: leaves the greatest closed part, or tells a constraint that is false where there is none.
pub fn close<C: Constraints, S: Store>(
    alloc: Global,
    all: &C,
    store: &mut S,
    log: &mut List<Step>,
) -> Result<Outcome, Memory>
    requires fit { IsFit (C.system all.now).vals (S.family store.old) }
    requires filled { Filled (length (C.system all.now).vals) (S.family store.old) }
    ensures first { S.first store.new ≡ S.first store.old }
    ensures logged { Logged (C.system all.now)
        (S.family store.old) (S.removed store.old) log.old
        (S.family store.new) (S.removed store.new) log.new }
    ensures closes { IfOk result
        (Closes (C.system all.now) (S.family store.old) (S.family store.new)) }
{
    let net = Net::new(alloc, all)?;
    close_in(all, &net, store, log)
}
