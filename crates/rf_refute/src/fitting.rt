ghost use Rattle.std.specs.Prelude.{◌≡◌, MatchBool};
ghost use Rattle.rf_form.specs.Alive.{IsFit};
ghost use Rattle.rf_cons.specs.Systems.{System};
ghost use Rattle.rf_refute.specs.Good.{Fits};
ghost use Rattle.rf_refute.specs.Numbers.{Rises};
ghost use Rattle.rf_refute.specs.Shown.{shown};
ghost use Rattle.rf_refute.specs.Stacks.{values_from};
ghost use Rattle.rf_refute.specs.Trees as trees;

use crate::falsity::fails;
use crate::nodes::Node;
use crate::values::next_from;
use rf_cons::Constraints;
use rf_form::{Alive, At, Vals};

/// Whether the list has exactly the alive places of the variable, in order.
fn are_values<D: Alive>(vals: &Vals, doms: &D, x: u32, listed: &[u16]) -> bool
    requires { IsFit vals.now (D.family doms.now) }
    ensures { MatchBool result
        (listed.now ≡ values_from vals.now (D.family doms.now) x 0)
        (listed.now ≡ values_from vals.now (D.family doms.now) x 0 → ⊥) }
{
    let mut from = 0;
    for v in listed {
        match next_from(vals, doms, x, from) {
            None => return false,
            Some(w) => {
                if w != *v {
                    return false;
                }
                from = w as u32 + 1;
            }
        }
    }
    match next_from(vals, doms, x, from) {
        None => true,
        Some(_) => false,
    }
}

fn remove_fits<C: Constraints, D: Alive>(all: &C, doms: &D, x: u32, v: u16, c: u64) -> bool
    requires rising { Rises (C.system all.now) }
    requires fit { IsFit (C.system all.now).vals (D.family doms.now) }
    ensures { MatchBool result
        (Fits (C.system all.now) (D.family doms.now) (trees.Remove x v c))
        (Fits (C.system all.now) (D.family doms.now) (trees.Remove x v c) → ⊥) }
{
    if x as usize >= all.vals().len() {
        return false;
    }
    if !doms.has(x, v) {
        return false;
    }
    let here = At { dom: doms, x, v };
    fails(all, c, &here)
}

fn split_fits<C: Constraints, D: Alive>(all: &C, doms: &D, x: u32, listed: &[u16]) -> bool
    requires { IsFit (C.system all.now).vals (D.family doms.now) }
    ensures { MatchBool result
        (Fits (C.system all.now) (D.family doms.now) (trees.Split x listed.now))
        (Fits (C.system all.now) (D.family doms.now) (trees.Split x listed.now) → ⊥) }
{
    let vals = all.vals();
    if x as usize >= vals.len() {
        return false;
    }
    if listed.len() < 2 {
        return false;
    }
    are_values(vals, doms, x, listed)
}

/// Whether the node is right where these are the domains.
pub fn fits<C: Constraints, D: Alive>(all: &C, doms: &D, node: &Node) -> bool
    requires rising { Rises (C.system all.now) }
    requires fit { IsFit (C.system all.now).vals (D.family doms.now) }
    ensures { MatchBool result
        (Fits (C.system all.now) (D.family doms.now) (shown node.now))
        (Fits (C.system all.now) (D.family doms.now) (shown node.now) → ⊥) }
{
    match node {
        Node::Remove { x, v, c } => remove_fits(all, doms, *x, *v, *c),
        Node::Split { x, vals } => split_fits(all, doms, *x, vals.as_slice()),
        Node::Fail { c } => fails(all, *c, doms),
    }
}
