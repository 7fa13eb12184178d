ghost use Rattle.std.specs.Prelude.{◌≡◌, ◌++◌, IfOk, OnOk, length, map};
ghost use Rattle.rf_form.specs.Alive.{IsFit};
ghost use Rattle.rf_form.specs.Families.{Filled, Part};
ghost use Rattle.rf_cons.specs.Systems.{System};
ghost use Rattle.rf_prop.specs.Queues.{Wired};
ghost use Rattle.rf_prop.specs.Turns.{Closes};
ghost use Rattle.rf_refute.specs.Shown.{shown};
ghost use Rattle.rf_refute.specs.Stacks.{Grown, values_from};
ghost use Rattle.rf_search.specs.Writes.{removing, Writes};

use rf_cons::Constraints;
use rf_form::{Alive, Vals};
use rf_prop::{Net, Outcome, Step, close_in};
use rf_refute::{Node, next_from};
use rf_text::{List, Memory};
use rf_trail::Store;
use smallvec::SmallVec;
use std::alloc::Global;

/// A node for each removal.
fn write_steps(steps: &[Step], nodes: &mut List<Node>) -> Result<(), Memory>
    ensures { OnOk result
        (map shown nodes.new ≡ map shown nodes.old ++ map removing steps.now) }
{
    for step in steps {
        nodes.push(Node::Remove {
            x: step.x,
            v: step.v,
            c: step.c,
        })?;
    }
    Ok(())
}

/// Closes the domains. Writes the removals, and the failure where there is no closed part.
pub fn close_written<C: Constraints, S: Store>(
    all: &C,
    net: &Net,
    store: &mut S,
    log: &mut List<Step>,
    nodes: &mut List<Node>,
) -> Result<Outcome, Memory>
    requires wired { Wired (C.system all.now) net.now.vars net.now.watchers }
    requires fit { IsFit (C.system all.now).vals (S.family store.old) }
    requires filled { Filled (length (C.system all.now).vals) (S.family store.old) }
    ensures first { S.first store.new ≡ S.first store.old }
    ensures fit { IsFit (C.system all.now).vals (S.family store.new) }
    ensures filled { Filled (length (C.system all.now).vals) (S.family store.new) }
    ensures grown { Grown (S.removed store.old) (S.removed store.new) }
    ensures part { Part (S.family store.new) (S.family store.old) }
    ensures closes { IfOk result
        (Closes (C.system all.now) (S.family store.old) (S.family store.new)) }
    ensures writes { IfOk result
        (Writes (C.system all.now) (S.family store.old) (S.family store.new)
        (map shown nodes.old) (map shown nodes.new)) }
{
    log.truncate(0);
    let outcome = close_in(all, net, store, log)?;
    write_steps(log.as_slice(), nodes)?;
    match outcome {
        Outcome::Closed => Ok(Outcome::Closed),
        Outcome::Empty { c } => {
            nodes.push(Node::Fail { c })?;
            Ok(Outcome::Empty { c })
        }
    }
}

/// The alive places of the variable, in order.
pub fn places_of<D: Alive>(
    alloc: Global,
    vals: &Vals,
    doms: &D,
    x: u32,
) -> Result<SmallVec<u16, 4>, Memory>
    requires { IsFit vals.now (D.family doms.now) }
    ensures { IfOk result (λ places.
        places.items ≡ values_from vals.now (D.family doms.now) x 0) }
{
    let mut places = SmallVec::new(alloc);
    let mut from = 0;
    while let Some(v) = next_from(vals, doms, x, from) {
        places.push(v)?;
        from = v as u32 + 1;
    }
    Ok(places)
}
