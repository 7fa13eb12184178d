//! Boxes, and formulas that are made of boxes and lists.

use crate::formula::Formula;
use rf_text::{Boxed, List, Memory};
use std::alloc::Global;
use std::test::Fail;

#[test]
fn a_box_is_read_written_and_opened(rt: HostRuntime) -> Result<(), Fail> {
    let mut boxed = Boxed::new(rt.alloc(), 41u32)?;
    let before = *boxed.get();
    *boxed.get_mut() += 1;
    let after = *boxed.get();
    let inner = boxed.into_inner();
    assert!(rt; before == 41 && after == 42 && inner == 42);
    Ok(())
}

fn not(alloc: Global, formula: Formula) -> Result<Formula, Memory> {
    Ok(Formula::Not(Boxed::new(alloc, formula)?))
}

fn both(alloc: Global, first: Formula, second: Formula) -> Result<Formula, Memory> {
    let mut formulas = List::new(alloc);
    formulas.push(first)?;
    formulas.push(second)?;
    Ok(Formula::All(formulas))
}

/// Not not true, and all of none.
fn always(alloc: Global) -> Result<Formula, Memory> {
    both(alloc, not_not_true(alloc)?, Formula::All(List::new(alloc)))
}

/// What holds always, and that it doesn't.
fn never(alloc: Global) -> Result<Formula, Memory> {
    let opposite = not(alloc, always(alloc)?)?;
    both(alloc, always(alloc)?.copy(alloc)?, opposite)
}

/// Whether the formula holds; nothing where memory was wanted.
fn holds(made: Result<Formula, Memory>) -> Option<bool> {
    match made {
        Ok(formula) => Some(formula.holds()),
        Err(_) => None,
    }
}

/// Whether a copy of the formula holds.
fn copy_holds(alloc: Global, made: Result<Formula, Memory>) -> Option<bool> {
    match made {
        Ok(formula) => holds(formula.copy(alloc)),
        Err(_) => None,
    }
}

fn not_not_true(alloc: Global) -> Result<Formula, Memory> {
    not(alloc, not(alloc, Formula::True)?)
}

#[test]
fn a_formula_holds_as_its_copy_does(rt: HostRuntime) {
    let alloc = rt.alloc();
    assert!(rt; matches!(holds(not(alloc, Formula::True)), Some(false)));
    assert!(rt; matches!(holds(not_not_true(alloc)), Some(true)));
    assert!(rt; matches!(holds(always(alloc)), Some(true)));
    assert!(rt; matches!(holds(never(alloc)), Some(false)));
    assert!(rt; matches!(copy_holds(alloc, never(alloc)), Some(false)));
}
