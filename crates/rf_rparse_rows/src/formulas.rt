//! Formulas, each as the body of a rule.

use crate::files::{Case, reads};
use rf_rparse::RuleErr;
use rf_text::{Bytes, Memory};
use std::alloc::Global;

/// `before`, then the text, then `behind`.
fn within(alloc: Global, before: &[u8], text: &[u8], behind: &[u8]) -> Result<Bytes, Memory> {
    let mut whole = Bytes::from_slice(alloc, before)?;
    whole.extend(text)?;
    whole.extend(behind)?;
    Ok(whole)
}

fn formula_reads(alloc: Global, text: &[u8], told: &[u8]) -> Result<bool, RuleErr> {
    let text = within(alloc, b"rule r for t:u then ", text, b" end")?;
    let told = within(alloc, b"[rule r t:u | | ", told, b"]")?;
    reads(alloc, text.as_slice(), told.as_slice())
}

fn all_read(alloc: Global, cases: &[Case]) -> bool {
    for (text, told) in cases {
        if !matches!(formula_reads(alloc, text, told), Ok(true)) {
            return false;
        }
    }
    true
}

const CHAINS: [Case; 9] = [
    (
        b"true implies false implies true",
        b"(implies true (implies false true))",
    ),
    (
        b"(true implies false) implies true",
        b"(implies (implies true false) true)",
    ),
    (
        b"true implies (false implies true)",
        b"(implies true (implies false true))",
    ),
    (b"true or false or true", b"(or (or true false) true)"),
    (b"(true or false) or true", b"(or (or true false) true)"),
    (b"true or (false or true)", b"(or true (or false true))"),
    (b"true and false and true", b"(and (and true false) true)"),
    (b"(true and false) and true", b"(and (and true false) true)"),
    (b"true and (false and true)", b"(and true (and false true))"),
];

const LEVELS: [Case; 14] = [
    (
        b"true implies false or true",
        b"(implies true (or false true))",
    ),
    (
        b"(true implies false) or true",
        b"(or (implies true false) true)",
    ),
    (
        b"true or false implies true",
        b"(implies (or true false) true)",
    ),
    (
        b"true or (false implies true)",
        b"(or true (implies false true))",
    ),
    (
        b"true and false implies true",
        b"(implies (and true false) true)",
    ),
    (
        b"true and (false implies true)",
        b"(and true (implies false true))",
    ),
    (b"true or false and true", b"(or true (and false true))"),
    (b"(true or false) and true", b"(and (or true false) true)"),
    (b"true and false or true", b"(or (and true false) true)"),
    (b"true and (false or true)", b"(and true (or false true))"),
    (b"not true and false", b"(and (not true) false)"),
    (b"not (true and false)", b"(not (and true false))"),
    (b"not not true or false", b"(or (not (not true)) false)"),
    (b"((not ((true))))", b"(not true)"),
];

const QUANTIFIERS: [Case; 7] = [
    (b"all x:k:(true)", b"(all x:k | | true)"),
    (
        b"some x:k,y:l:(true) and false",
        b"(and (some x:k y:l | | true) false)",
    ),
    (
        b"not all a:k,b:k,c:k,d:k if p(a):(true)",
        b"(not (all a:k b:k c:k d:k | p( a ) | true))",
    ),
    (
        b"some x:k if p(x),q(x,t):(x=t)",
        b"(some x:k | p( x ) q( x t ) | (= x t))",
    ),
    (
        b"all x:k:(some x:k:(true))",
        b"(all x:k | | (some x:k | | true))",
    ),
    (
        b"all x:k:(true) implies some x:k:(false)",
        b"(implies (all x:k | | true) (some x:k | | false))",
    ),
    (
        b"all x:k:(true implies false)",
        b"(all x:k | | (implies true false))",
    ),
];

const ATOMS: [Case; 12] = [
    (b"t = u", b"(= t u)"),
    (b"t!=u", b"(!= t u)"),
    (b"t<=u", b"(<= t u)"),
    (b"t.name = u", b"(= t.name u)"),
    (b"t = u . name", b"(= t u.name)"),
    (b"t.package = u.package", b"(= t.package u.package)"),
    (
        b"old(t.name) != old ( u.package )",
        b"(!= old t.name old u.package)",
    ),
    (
        b"package <= protected",
        b"(<= access package access protected)",
    ),
    (b"private = t", b"(= access private t)"),
    (b"\"end\" = \"\"", b"(= text end text )"),
    (b"p(t)", b"p( t )"),
    (b"p ( t , u , t )", b"p( t u t )"),
];

#[test]
fn implies_nests_to_the_right_and_the_others_to_the_left(rt: HostRuntime) {
    assert!(rt; all_read(rt.alloc(), &CHAINS));
}

#[test]
fn and_binds_before_or_and_or_before_implies(rt: HostRuntime) {
    assert!(rt; all_read(rt.alloc(), &LEVELS));
}

#[test]
fn quantifiers_end_at_their_parenthesis(rt: HostRuntime) {
    assert!(rt; all_read(rt.alloc(), &QUANTIFIERS));
}

#[test]
fn atoms_are_comparisons_and_predicates(rt: HostRuntime) {
    assert!(rt; all_read(rt.alloc(), &ATOMS));
}
