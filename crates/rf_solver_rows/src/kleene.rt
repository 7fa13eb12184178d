//! Kleene's values of formulas over all domains of two variables with three values, against plain loops.

use rf_form::{Doms, Form, Term, Tri, Vals, eval3};
use rf_text::{Boxed, List, Memory};
use std::alloc::Global;
use std::test::Fail;

/// The places below 3 whose bit is in the mask.
fn places(alloc: Global, mask: u32) -> Result<List<u16>, Memory> {
    let mut list = List::new(alloc);
    for v in 0..3u16 {
        if is_alive(mask, v as u32) {
            list.push(v)?;
        }
    }
    Ok(list)
}

fn is_alive(mask: u32, v: u32) -> bool {
    match v {
        0 => mask & 1 != 0,
        1 => mask & 2 != 0,
        _ => mask & 4 != 0,
    }
}

fn two<T: Drop>(alloc: Global, first: T, second: T) -> Result<List<T>, Memory> {
    let mut list = List::new(alloc);
    list.push(first)?;
    list.push(second)?;
    Ok(list)
}

/// Each variable has the values 10, 11 and 12.
fn values(alloc: Global) -> Result<List<u32>, Memory> {
    let mut list = List::new(alloc);
    list.push(10)?;
    list.push(11)?;
    list.push(12)?;
    Ok(list)
}

fn domains(alloc: Global, first: u32, second: u32) -> Result<Doms, Memory> {
    let alive = two(alloc, places(alloc, first)?, places(alloc, second)?)?;
    Ok(Doms { alive })
}

/// 0 for unknown, 1 for false, 2 for true; 3 where the domains don't fit.
fn number(form: &Form, vals: &Vals, doms: &Doms) -> u32 {
    if !doms.fits(vals) {
        return 3;
    }
    match eval3(form, vals, doms) {
        Tri::Unknown => 0,
        Tri::False => 1,
        Tri::True => 2,
    }
}

/// The value where the places of both variables are those of the masks.
fn value(alloc: Global, form: &Form, first: u32, second: u32) -> Result<u32, Memory> {
    let vals = two(alloc, values(alloc)?, values(alloc)?)?;
    let doms = domains(alloc, first, second)?;
    Ok(number(form, &vals, &doms))
}

fn told(yes: bool, no: bool) -> u32 {
    if yes == no {
        return 0;
    }
    if yes { 2 } else { 1 }
}

/// What x <= y is by all pairs of places that are alive.
fn at_most_by_pairs(first: u32, second: u32) -> u32 {
    let mut yes = false;
    let mut no = false;
    for p in 0..3 {
        for q in 0..3 {
            if is_alive(first, p) && is_alive(second, q) {
                yes = yes || p <= q;
                no = no || q < p;
            }
        }
    }
    told(yes, no)
}

/// What x = 11 is by all places that are alive.
fn is_eleven_by_places(mask: u32) -> u32 {
    told(is_alive(mask, 1), is_alive(mask, 0) || is_alive(mask, 2))
}

#[test]
fn an_atom_is_what_all_pairs_of_alive_places_say(rt: HostRuntime) -> Result<(), Fail> {
    let at_most = Form::Le(Term::Var(0), Term::Var(1));
    for first in 0..8 {
        for second in 0..8 {
            let value = value(rt.alloc(), &at_most, first, second)?;
            assert_eq!(rt; value, at_most_by_pairs(first, second));
        }
    }
    Ok(())
}

#[test]
fn one_variable_with_itself_is_true_where_it_has_a_place(rt: HostRuntime) -> Result<(), Fail> {
    let itself = Form::Eq(Term::Var(0), Term::Var(0));
    for first in 0..8 {
        let value = value(rt.alloc(), &itself, first, 7)?;
        assert_eq!(rt; value, told(first != 0, false));
    }
    Ok(())
}

/// All of two values, by Kleene.
fn both(first: u32, second: u32) -> u32 {
    if first == 1 || second == 1 {
        return 1;
    }
    if first == 2 && second == 2 { 2 } else { 0 }
}

fn opposite(value: u32) -> u32 {
    match value {
        1 => 2,
        2 => 1,
        _ => value,
    }
}

/// The first is above the second, and the second is 11.
fn above_eleven(alloc: Global) -> Result<Form, Memory> {
    let at_most = Form::Le(Term::Var(0), Term::Var(1));
    let above = Form::Not(Boxed::new(alloc, at_most)?);
    let eleven = Form::Eq(Term::Var(1), Term::Const(11));
    Ok(Form::All(two(alloc, above, eleven)?))
}

#[test]
fn a_formula_is_what_its_parts_say(rt: HostRuntime) -> Result<(), Fail> {
    let form = above_eleven(rt.alloc())?;
    for first in 0..8 {
        for second in 0..8 {
            let value = value(rt.alloc(), &form, first, second)?;
            let above = opposite(at_most_by_pairs(first, second));
            assert_eq!(rt; value, both(above, is_eleven_by_places(second)));
        }
    }
    Ok(())
}

/// Whether domains of these places fit where the second variable has no value.
fn fit_without(alloc: Global, first: u32, second: u32) -> Result<bool, Memory> {
    let vals = two(alloc, values(alloc)?, List::new(alloc))?;
    let doms = domains(alloc, first, second)?;
    Ok(doms.fits(&vals))
}

#[test]
fn domains_fit_where_each_place_has_a_value(rt: HostRuntime) -> Result<(), Fail> {
    assert!(rt; matches!(fit_without(rt.alloc(), 7, 0), Ok(true)));
    assert!(rt; matches!(fit_without(rt.alloc(), 7, 1), Ok(false)));
    Ok(())
}
