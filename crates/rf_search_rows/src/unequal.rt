//! Three pairwise unequal variables with two values, alone and behind a variable that no constraint
//! has.

use crate::built::values;
use crate::found::{counted, found, is_accepted};
use rf_form::{Doms, Form, Term};
use rf_search::Found;
use rf_solver_rows::Listed;
use rf_text::{Boxed, List, Memory};
use std::alloc::Global;
use std::test::Fail;

fn differ(alloc: Global, x: u32, y: u32) -> Result<Form, Memory> {
    let same = Form::Eq(Term::Var(x), Term::Var(y));
    Ok(Form::Not(Boxed::new(alloc, same)?))
}

/// The last three of so many variables are pairwise unequal.
fn unequal(alloc: Global, count: u32) -> Result<Listed, Memory> {
    let mut vals = List::new(alloc);
    for _ in 0..count {
        vals.push(values(alloc, 2)?)?;
    }
    let p = count.saturating_sub(3);
    let q = count.saturating_sub(2);
    let r = count.saturating_sub(1);
    let mut forms = List::new(alloc);
    forms.push(differ(alloc, p, q)?)?;
    forms.push(differ(alloc, p, r)?)?;
    forms.push(differ(alloc, q, r)?)?;
    Ok(Listed { vals, forms })
}

fn domains(alloc: Global, count: u32) -> Result<Doms, Memory> {
    let mut alive = List::new(alloc);
    for _ in 0..count {
        let mut places = List::new(alloc);
        places.push(0)?;
        places.push(1)?;
        alive.push(places)?;
    }
    Ok(Doms { alive })
}

/// The number of the Budget, 100 and the number of counted children of a refutation that the
/// checker accepts, else 999.
fn answer(alloc: Global, count: u32, budget: u64) -> Result<u64, Memory> {
    let all = unequal(alloc, count)?;
    let doms = domains(alloc, count)?;
    match found(alloc, &all, &doms, budget)? {
        Some(Found::Budget { counted }) => Ok(counted),
        Some(Found::Refutation(tree)) => {
            if !is_accepted(alloc, &all, &doms, &tree)? {
                return Ok(999);
            }
            Ok(counted(tree.nodes.as_slice()).saturating_add(100))
        }
        Some(Found::Solution(_)) => Ok(999),
        None => Ok(999),
    }
}

#[test]
fn three_unequal_variables_with_two_values_need_one(rt: HostRuntime) -> Result<(), Fail> {
    assert!(rt; matches!(answer(rt.alloc(), 3, 0), Ok(0)));
    assert!(rt; matches!(answer(rt.alloc(), 3, 1), Ok(101)));
    assert!(rt; matches!(answer(rt.alloc(), 3, 1000), Ok(101)));
    Ok(())
}

#[test]
fn behind_a_variable_of_no_constraint_they_need_three(rt: HostRuntime) -> Result<(), Fail> {
    assert!(rt; matches!(answer(rt.alloc(), 4, 2), Ok(2)));
    assert!(rt; matches!(answer(rt.alloc(), 4, 3), Ok(103)));
    assert!(rt; matches!(answer(rt.alloc(), 4, 1000), Ok(103)));
    Ok(())
}
