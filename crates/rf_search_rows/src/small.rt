//! All choices of three from a list of constraints, over three variables: first solution, need and
//! refutation against plain loops. Where the last two are the same, that is a choice of two.

use crate::built::{domains, listed};
use crate::found::{counted, found, is_accepted};
use crate::plain::{Atom, Kind, Plain, Wanted, bit, canon, least};
use crate::refuted::is_good;
use rf_form::Doms;
use rf_refute::Tree;
use rf_search::Found;
use rf_solver_rows::Listed;
use rf_text::Memory;
use std::alloc::Global;
use std::test::Fail;

const COUNT: u32 = 16;

fn atom(kind: Kind, x: u32, y: u32) -> Atom {
    Atom { kind, x, y }
}

fn one(kind: Kind, x: u32, y: u32) -> Plain {
    Plain::One(atom(kind, x, y))
}

fn constraint(number: u32) -> Plain {
    match number {
        0 => one(Kind::Other, 0, 1),
        1 => one(Kind::Other, 0, 2),
        2 => one(Kind::Other, 1, 2),
        3 => one(Kind::Same, 0, 1),
        4 => one(Kind::Same, 2, 0),
        5 => one(Kind::AtMost, 0, 1),
        6 => one(Kind::AtMost, 1, 2),
        7 => one(Kind::AtMost, 2, 0),
        8 => one(Kind::Below, 1, 0),
        9 => one(Kind::Below, 2, 1),
        10 => one(Kind::Below, 0, 2),
        11 => Plain::Either(atom(Kind::Other, 0, 1), atom(Kind::Same, 1, 2)),
        12 => Plain::Either(atom(Kind::Same, 0, 1), atom(Kind::Below, 2, 0)),
        13 => Plain::Either(atom(Kind::Below, 0, 1), atom(Kind::Below, 1, 0)),
        14 => Plain::Both(atom(Kind::Other, 0, 1), atom(Kind::Other, 1, 2)),
        _ => Plain::Both(atom(Kind::AtMost, 2, 1), atom(Kind::Other, 0, 2)),
    }
}

/// The places of a solution as a family; 0 where it has other than three values.
fn family_of(values: &[u32]) -> u32 {
    if values.len() != 3 {
        return 0;
    }
    bit(0, values[0].wrapping_sub(10))
        | bit(1, values[1].wrapping_sub(10))
        | bit(2, values[2].wrapping_sub(10))
}

/// What is wrong with a refutation; 0 for nothing.
fn fault_of_tree(
    alloc: Global,
    constraints: &[Plain],
    family: u32,
    all: &Listed,
    doms: &Doms,
    tree: &Tree,
    need: u64,
) -> Result<u32, Memory> {
    if !is_good(alloc, constraints, family, tree.nodes.as_slice())? {
        return Ok(1);
    }
    if !is_accepted(alloc, all, doms, tree)? {
        return Ok(2);
    }
    if counted(tree.nodes.as_slice()) > need {
        return Ok(3);
    }
    Ok(0)
}

/// What is wrong with the answer for that budget; 0 for nothing.
fn fault(
    alloc: Global,
    constraints: &[Plain],
    family: u32,
    wanted: Wanted,
    budget: u64,
) -> Result<u32, Memory> {
    let all = listed(alloc, constraints)?;
    let doms = domains(alloc, family)?;
    match found(alloc, &all, &doms, budget)? {
        None => Ok(4),
        Some(Found::Budget { counted }) => {
            Ok(if wanted.need > budget && counted == budget {
                0
            } else {
                5
            })
        }
        Some(Found::Solution(values)) => {
            let right = wanted.need <= budget && family_of(values.as_slice()) == wanted.end;
            Ok(if right && wanted.end != 0 { 0 } else { 6 })
        }
        Some(Found::Refutation(tree)) => {
            if wanted.need > budget || wanted.end != 0 {
                return Ok(7);
            }
            fault_of_tree(alloc, constraints, family, &all, &doms, &tree, wanted.need)
        }
    }
}

/// The first fault over the budgets about the need; 8 where the first solution isn't the least one.
fn fault_about_need(alloc: Global, constraints: &[Plain], family: u32) -> Result<u32, Memory> {
    let wanted = canon(constraints, family, 3);
    if wanted.end != least(constraints, family) {
        return Ok(8);
    }
    let exact = fault(alloc, constraints, family, wanted, wanted.need)?;
    if exact != 0 {
        return Ok(exact);
    }
    let large = fault(alloc, constraints, family, wanted, 1000)?;
    if large != 0 || wanted.need == 0 {
        return Ok(large);
    }
    fault(alloc, constraints, family, wanted, wanted.need - 1)
}

/// Of two constraints over domains of up to three places, of three over smaller ones.
fn families(two: bool) -> [u32; 2] {
    if two { [0o777, 0o573] } else { [0o333, 0o353] }
}

fn fault_of_choice(alloc: Global, first: u32, second: u32, third: u32) -> Result<u32, Memory> {
    let three = [constraint(first), constraint(second), constraint(third)];
    for family in families(second == third) {
        let fault = fault_about_need(alloc, &three, family)?;
        if fault != 0 {
            return Ok(fault);
        }
    }
    Ok(0)
}

fn first_fault(alloc: Global) -> Result<u32, Memory> {
    for first in 0..COUNT {
        for second in first..COUNT {
            for third in second..COUNT {
                let fault = fault_of_choice(alloc, first, second, third)?;
                if fault != 0 {
                    return Ok(fault);
                }
            }
        }
    }
    Ok(0)
}

#[test]
fn the_answer_is_that_of_plain_loops(rt: HostRuntime) -> Result<(), Fail> {
    assert!(rt; matches!(first_fault(rt.alloc()), Ok(0)));
    Ok(())
}
