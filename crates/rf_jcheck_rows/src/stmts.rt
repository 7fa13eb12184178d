//! Statements (JLS 14).

use crate::trees::Trees;
use rf_jcheck::stmt_fits;
use rf_jtree::{ForFirst, Stmt};
use std::mem::forget;

fn fits(stmt: Box<Stmt>) -> bool {
    let fits = stmt_fits(&*stmt);
    forget(stmt);
    fits
}

#[test]
fn an_else_belongs_to_the_nearest_if(rt: HostRuntime) {
    let t = Trees { rt: &rt };
    let right = fits(t.if_then(t.empty(), t.or_else(t.open_if())))
        && !fits(t.if_then(t.open_if(), t.or_else(t.empty())))
        && !fits(t.if_then(t.while_do(t.open_if()), t.or_else(t.empty())))
        && fits(t.if_then(
            t.if_then(t.empty(), t.or_else(t.empty())),
            t.or_else(t.empty()),
        ));
    assert!(rt; right);
}

#[test]
fn few_expressions_are_statements(rt: HostRuntime) {
    let t = Trees { rt: &rt };
    let right = fits(t.run(t.call()))
        && fits(t.run(t.unary("++", t.name("a"))))
        && !fits(t.run(t.unary("-", t.name("a"))))
        && !fits(t.run(t.name("a")))
        && !fits(t.run(t.paren(t.call())))
        && !fits(t.run(t.new_array(t.no_dims())));
    assert!(rt; right);
}

#[test]
fn a_try_has_a_catch_or_a_finally(rt: HostRuntime) {
    let t = Trees { rt: &rt };
    let right = !fits(t.try_with(None)) && fits(t.try_with(t.last()));
    assert!(rt; right);
}

#[test]
fn the_parts_of_a_for_are_statements(rt: HostRuntime) {
    let t = Trees { rt: &rt };
    let right = fits(t.for_with(
        ForFirst::Exprs(t.one_expr(t.call())),
        t.one_expr(t.postfix(t.name("a"))),
    )) && !fits(t.for_with(ForFirst::Exprs(t.one_expr(t.name("a"))), None))
        && !fits(t.for_with(ForFirst::Exprs(None), t.one_expr(t.name("a"))));
    assert!(rt; right);
}

#[test]
fn a_local_declaration_is_no_part_of_a_statement(rt: HostRuntime) {
    let t = Trees { rt: &rt };
    let right = fits(t.local(t.one(t.word("final"))))
        && !fits(t.local(t.one(t.word("static"))))
        && !fits(t.if_then(t.local(t.none()), None));
    assert!(rt; right);
}
