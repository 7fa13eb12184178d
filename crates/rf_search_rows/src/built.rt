//! The constraints and families of `plain` as those of the solver. A value is its place and 10.

use crate::plain::{Atom, Kind, Plain, has};
use rf_form::{Doms, Form, Term};
use rf_solver_rows::Listed;
use rf_text::{Boxed, List, Memory};
use std::alloc::Global;

fn atom(alloc: Global, atom: Atom) -> Result<Form, Memory> {
    let first = Term::Var(atom.x);
    let second = Term::Var(atom.y);
    match atom.kind {
        Kind::Same => Ok(Form::Eq(first, second)),
        Kind::Other => Ok(Form::Not(Boxed::new(alloc, Form::Eq(first, second))?)),
        Kind::AtMost => Ok(Form::Le(first, second)),
        Kind::Below => Ok(Form::Not(Boxed::new(alloc, Form::Le(second, first))?)),
    }
}

fn two(alloc: Global, first: Atom, second: Atom) -> Result<List<Form>, Memory> {
    let mut list = List::new(alloc);
    list.push(atom(alloc, first)?)?;
    list.push(atom(alloc, second)?)?;
    Ok(list)
}

fn form(alloc: Global, constraint: Plain) -> Result<Form, Memory> {
    match constraint {
        Plain::One(only) => atom(alloc, only),
        Plain::Both(first, second) => Ok(Form::All(two(alloc, first, second)?)),
        Plain::Either(first, second) => Ok(Form::Any(two(alloc, first, second)?)),
    }
}

/// So many values, from 10 on.
pub(crate) fn values(alloc: Global, count: u32) -> Result<List<u32>, Memory> {
    let mut list = List::new(alloc);
    for v in 0..count {
        list.push(v.wrapping_add(10))?;
    }
    Ok(list)
}

pub(crate) fn listed(alloc: Global, constraints: &[Plain]) -> Result<Listed, Memory> {
    let mut vals = List::new(alloc);
    for _ in 0..3 {
        vals.push(values(alloc, 3)?)?;
    }
    let mut forms = List::new(alloc);
    for constraint in constraints {
        forms.push(form(alloc, *constraint)?)?;
    }
    Ok(Listed { vals, forms })
}

fn places(alloc: Global, family: u32, x: u32) -> Result<List<u16>, Memory> {
    let mut list = List::new(alloc);
    for v in 0..3u16 {
        if has(family, x, v as u32) {
            list.push(v)?;
        }
    }
    Ok(list)
}

pub(crate) fn domains(alloc: Global, family: u32) -> Result<Doms, Memory> {
    let mut alive = List::new(alloc);
    for x in 0..3 {
        alive.push(places(alloc, family, x)?)?;
    }
    Ok(Doms { alive })
}
