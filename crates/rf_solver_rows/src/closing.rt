//! Closing of two variables with three values under `x <= y` and `x != y`, against the union of all closed parts.

use crate::listed_forms::Listed;
use rf_form::{Alive, Doms, Form, Term};
use rf_prop::{Outcome, are_filled, close};
use rf_text::{Boxed, List, Memory};
use rf_trail::Trail;
use std::alloc::Global;
use std::test::Fail;

fn is_alive(mask: u32, v: u32) -> bool {
    match v {
        0 => mask & 1 != 0,
        1 => mask & 2 != 0,
        _ => mask & 4 != 0,
    }
}

fn places(alloc: Global, mask: u32) -> Result<List<u16>, Memory> {
    let mut list = List::new(alloc);
    for v in 0..3u16 {
        if is_alive(mask, v as u32) {
            list.push(v)?;
        }
    }
    Ok(list)
}

fn two<T: Drop>(alloc: Global, first: T, second: T) -> Result<List<T>, Memory> {
    let mut list = List::new(alloc);
    list.push(first)?;
    list.push(second)?;
    Ok(list)
}

fn values(alloc: Global) -> Result<List<u32>, Memory> {
    let mut list = List::new(alloc);
    list.push(0)?;
    list.push(1)?;
    list.push(2)?;
    Ok(list)
}

fn system(alloc: Global) -> Result<Listed, Memory> {
    let same = Form::Eq(Term::Var(0), Term::Var(1));
    let other = Form::Not(Boxed::new(alloc, same)?);
    let vals = two(alloc, values(alloc)?, values(alloc)?)?;
    let forms = two(alloc, Form::Le(Term::Var(0), Term::Var(1)), other)?;
    Ok(Listed { vals, forms })
}

/// The mask of the places of the variable.
fn mask_of<D: Alive>(doms: &D, x: u32) -> u32 {
    let mut mask = 0;
    if doms.has(x, 0) {
        mask |= 1;
    }
    if doms.has(x, 1) {
        mask |= 2;
    }
    if doms.has(x, 2) {
        mask |= 4;
    }
    mask
}

/// What is left of the two masks, the second times 8; 0 where there is no closed part.
fn closed(alloc: Global, all: &Listed, doms: &Doms) -> Result<u32, Memory> {
    if !doms.fits(&all.vals) {
        return Ok(999);
    }
    if !Trail::<1>::takes(doms) {
        return Ok(999);
    }
    if !are_filled(doms, all.vals.len()) {
        return Ok(999);
    }
    let mut trail = Trail::<1>::new(alloc, doms)?;
    let mut log = List::new(alloc);
    match close(alloc, all, &mut trail, &mut log)? {
        Outcome::Closed => Ok(mask_of(&trail, 0) | (mask_of(&trail, 1) << 3)),
        Outcome::Empty { c: _ } => Ok(0),
    }
}

/// Whether some pair of places is as asked: 0 for `x <= y`, else `x != y`.
fn has_pair(first: u32, second: u32, asked: u32) -> bool {
    for v in 0..3 {
        for w in 0..3 {
            if is_alive(first, v) && is_alive(second, w) {
                let hit = if asked == 0 { v <= w } else { v != w };
                if hit {
                    return true;
                }
            }
        }
    }
    false
}

/// Neither constraint is false, with any place alone.
fn is_closed(first: u32, second: u32) -> bool {
    for asked in 0..2 {
        for v in 0..3 {
            let here = 1u32 << v;
            if is_alive(first, v) && !has_pair(here, second, asked) {
                return false;
            }
            if is_alive(second, v) && !has_pair(first, here, asked) {
                return false;
            }
        }
    }
    true
}

fn union_of_closed(first: u32, second: u32) -> u32 {
    let mut left = 0u32;
    let mut right = 0u32;
    for p in 1..8u32 {
        for q in 1..8u32 {
            if p & first == p && q & second == q && is_closed(p, q) {
                left |= p;
                right |= q;
            }
        }
    }
    left | (right << 3)
}

#[test]
fn closing_leaves_the_union_of_all_closed_parts(rt: HostRuntime) -> Result<(), Fail> {
    let alloc = rt.alloc();
    let all = system(alloc)?;
    for first in 1..8 {
        for second in 1..8 {
            let doms = Doms {
                alive: two(alloc, places(alloc, first)?, places(alloc, second)?)?,
            };
            let left = closed(alloc, &all, &doms)?;
            assert_eq!(rt; left, union_of_closed(first, second));
        }
    }
    Ok(())
}
