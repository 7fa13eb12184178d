ghost use Rattle.std.specs.Prelude.{◌≡◌};
ghost use Rattle.rf_jtree.specs.Levels.{op_level, binary_level};

use crate::kinds::has_op;
use rf_jtree::levels::{
    ADDITIVE_LEVEL, AND_AND_LEVEL, AND_LEVEL, ASSIGNMENT_LEVEL, COMPARISON_LEVEL, EQUALITY_LEVEL,
    MULTIPLICATIVE_LEVEL, OR_LEVEL, OR_OR_LEVEL, SHIFT_LEVEL, XOR_LEVEL,
};
use rf_jtree::operator_names::{
    ADDITIVES, AND, AND_AND, COMPARISONS, EQUALITIES, MULTIPLICATIVES, OR, OR_OR, SHIFTS, XOR,
};
use rf_jtree::{Op, Tok, TokKind};

/// The level of a binary operator; 0 where it is none.
fn op_level(op: Op) -> usize
    ensures { result ≡ op_level op }
{
    if op.0 == OR_OR.0 {
        OR_OR_LEVEL
    } else if op.0 == AND_AND.0 {
        AND_AND_LEVEL
    } else if op.0 == OR.0 {
        OR_LEVEL
    } else if op.0 == XOR.0 {
        XOR_LEVEL
    } else if op.0 == AND.0 {
        AND_LEVEL
    } else if has_op(&EQUALITIES, op) {
        EQUALITY_LEVEL
    } else if has_op(&COMPARISONS, op) {
        COMPARISON_LEVEL
    } else if has_op(&SHIFTS, op) {
        SHIFT_LEVEL
    } else if has_op(&ADDITIVES, op) {
        ADDITIVE_LEVEL
    } else if has_op(&MULTIPLICATIVES, op) {
        MULTIPLICATIVE_LEVEL
    } else {
        ASSIGNMENT_LEVEL
    }
}

/// The level of a binary operator; 0 where the token is none.
pub fn binary_level(tok: &Tok) -> usize
    ensures { result ≡ binary_level tok.now }
{
    match tok.kind {
        TokKind::Op(op) => op_level(op),
        _ => ASSIGNMENT_LEVEL,
    }
}
