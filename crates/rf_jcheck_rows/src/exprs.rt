//! Expressions (JLS 15).

use crate::trees::Trees;
use rf_jcheck::expr_fits;
use rf_jtree::Expr;
use std::mem::forget;

fn fits(expr: Box<Expr>) -> bool {
    let fits = expr_fits(&*expr);
    forget(expr);
    fits
}

#[test]
fn operators_group_to_the_left_by_their_levels(rt: HostRuntime) {
    let t = Trees { rt: &rt };
    let right = fits(t.binary(t.sum(), "-", t.lit()))
        && !fits(t.binary(t.lit(), "-", t.sum()))
        && !fits(t.binary(t.sum(), "*", t.lit()))
        && fits(t.binary(t.lit(), "+", t.binary(t.name("a"), "*", t.name("b"))))
        && fits(t.binary(t.lit(), "*", t.paren(t.sum())))
        && !fits(t.binary(t.lit(), "=", t.lit()));
    assert!(rt; right);
}

#[test]
fn a_left_side_is_a_name_a_field_or_an_item(rt: HostRuntime) {
    let t = Trees { rt: &rt };
    let right = fits(t.assign(t.name("a"), t.lit()))
        && fits(t.assign(t.field(t.this()), t.lit()))
        && fits(t.assign(t.index(t.name("a")), t.assign(t.name("b"), t.lit())))
        && !fits(t.assign(t.paren(t.name("a")), t.lit()))
        && !fits(t.assign(t.call(), t.lit()))
        && !fits(t.assign(t.this(), t.lit()));
    assert!(rt; right);
}

#[test]
fn the_third_part_of_a_condition_is_no_assignment(rt: HostRuntime) {
    let t = Trees { rt: &rt };
    let right = fits(t.cond(t.name("a"), t.lit(), t.choice()))
        && !fits(t.cond(t.choice(), t.lit(), t.lit()))
        && fits(t.cond(t.name("a"), t.assign(t.name("b"), t.lit()), t.lit()))
        && !fits(t.cond(t.name("a"), t.lit(), t.assign(t.name("b"), t.lit())));
    assert!(rt; right);
}

#[test]
fn a_cast_to_a_class_or_an_array_takes_no_sign(rt: HostRuntime) {
    let t = Trees { rt: &rt };
    let right = fits(t.cast(t.prim(t.no_dims()), t.unary("-", t.lit())))
        && !fits(t.cast(t.prim(t.brackets()), t.unary("-", t.lit())))
        && !fits(t.cast(t.named(), t.unary("+", t.lit())))
        && !fits(t.cast(t.named(), t.unary("--", t.name("a"))))
        && fits(t.cast(t.named(), t.unary("~", t.lit())))
        && fits(t.cast(t.prim(t.brackets()), t.paren(t.name("a"))))
        && !fits(t.cast(t.named(), t.binary(t.lit(), "+", t.lit())));
    assert!(rt; right);
}

#[test]
fn names_and_new_arrays_go_as_far_as_they_go(rt: HostRuntime) {
    let t = Trees { rt: &rt };
    let right = fits(t.field(t.paren(t.name("a"))))
        && !fits(t.field(t.name("a")))
        && fits(t.index(t.name("a")))
        && fits(t.new_array(t.brackets()))
        && !fits(t.index(t.new_array(t.no_dims())))
        && fits(t.index(t.new_init(t.brackets())))
        && !fits(t.new_init(t.no_dims()))
        && fits(t.postfix(t.postfix(t.lit())))
        && !fits(t.postfix(t.unary("-", t.lit())))
        && !fits(t.field(t.postfix(t.name("a"))));
    assert!(rt; right);
}
