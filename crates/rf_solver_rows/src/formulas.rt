//! Formulas over all values of two variables.

use rf_form::{Alive, At, Doms, Form, Term, eval};
use rf_text::{Boxed, List, Memory};
use std::alloc::Global;
use std::test::Fail;

fn pair<T: Drop>(alloc: Global, first: T, second: T) -> Result<List<T>, Memory> {
    let mut list = List::new(alloc);
    list.push(first)?;
    list.push(second)?;
    Ok(list)
}

fn not(alloc: Global, form: Form) -> Result<Form, Memory> {
    Ok(Form::Not(Boxed::new(alloc, form)?))
}

/// The first variable is less than the second, or the first is 2.
fn less_or_two(alloc: Global) -> Result<Form, Memory> {
    let less = not(alloc, Form::Le(Term::Var(1), Term::Var(0)))?;
    Ok(Form::Any(pair(alloc, less, Form::Eq(Term::Var(0), Term::Const(2)))?))
}

fn with_constant(alloc: Global, form: Form, constant: Form) -> Result<Form, Memory> {
    Ok(Form::All(pair(alloc, form, constant)?))
}

/// The form beside what is true.
fn beside_true(alloc: Global) -> Result<Form, Memory> {
    with_constant(alloc, less_or_two(alloc)?, Form::True)
}

/// The same beside what is false.
fn beside_false(alloc: Global) -> Result<Form, Memory> {
    with_constant(alloc, beside_true(alloc)?, Form::False)
}

fn has_value(form: Result<Form, Memory>, values: &List<u32>, want: bool) -> bool {
    match form {
        Ok(form) => eval(&form, values) == want,
        Err(_) => false,
    }
}

/// Whether the form has this value at these two values, and also beside what is true, and is false beside what is false.
fn is_true(alloc: Global, x: u32, y: u32, want: bool) -> Result<bool, Memory> {
    let values = pair(alloc, x, y)?;
    Ok(
        has_value(less_or_two(alloc), &values, want)
            && has_value(beside_true(alloc), &values, want)
            && has_value(beside_false(alloc), &values, false),
    )
}

#[test]
fn plain_truth_is_that_of_the_values(rt: HostRuntime) -> Result<(), Fail> {
    for x in 0..4u32 {
        for y in 0..4u32 {
            assert!(rt; matches!(is_true(rt.alloc(), x, y, x < y || x == 2), Ok(true)));
        }
    }
    Ok(())
}

/// 5 twice, and 7 and 0.
fn doubled(alloc: Global) -> Result<Doms, Memory> {
    let first = pair(alloc, 5, 5)?;
    let alive = pair(alloc, first, pair(alloc, 7, 0)?)?;
    Ok(Doms { alive })
}

#[test]
fn domains_are_counted_without_doubles(rt: HostRuntime) -> Result<(), Fail> {
    let doms = doubled(rt.alloc())?;
    assert!(rt; doms.size(0) == 1 && doms.size(1) == 2 && doms.size(2) == 0);
    assert!(rt; doms.has(1, 0) && !doms.has(0, 0));
    let here = At {
        dom: &doms,
        x: 1,
        v: 7,
    };
    assert!(rt; here.size(1) == 1 && here.has(1, 7) && !here.has(1, 0) && here.has(0, 5));
    Ok(())
}
