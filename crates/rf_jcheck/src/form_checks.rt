ghost use Rattle.std.specs.Prelude.{◌↔◌, IsTrue};
ghost use Rattle.rf_jtree.specs.ExprFits.{BeginsOperand, CastTakes, IsAssign, IsCond, IsBinary, IsInstance, IsUnary, IsCast, IsPostfix, IsOn, IsField, IsSuper, IsIndex};
ghost use Rattle.rf_jtree.specs.ExprTrees.{expr_yield};
ghost use Rattle.rf_jtree.specs.ExprShown.{expr_shown};
ghost use Rattle.rf_jtree.specs.NameShown.{type_shown};

use crate::name_checks::{are_brackets, are_parens};
use rf_jfit::levels::binary_level;
use rf_jfit::{
    begins_operand, binds_at, expr_first, expr_level, is_ident, is_key, is_left_side, is_no_name,
    is_no_new_array, is_op, is_op_of,
};
use rf_jtree::keyword_names::{INSTANCEOF, SUPER};
use rf_jtree::levels::{
    COMPARISON_LEVEL, CONDITIONAL_LEVEL, OR_OR_LEVEL, POSTFIX_LEVEL, PRIMARY_LEVEL, UNARY_LEVEL,
};
use rf_jtree::operator_names::{ASSIGNMENTS, COLON, DOT, PREFIXES, QUESTION, SUFFIXES};
use rf_jtree::{Expr, Tok, TypeBase, TypeUse};

pub(crate) fn is_assign(left: &Expr, op: &Tok) -> bool
    ensures { IsTrue result ↔ IsAssign (expr_shown left.now) op.now }
{
    is_left_side(left) && is_op_of(op, &ASSIGNMENTS)
}

pub(crate) fn is_cond(test: &Expr, mark: &Tok, colon: &Tok, other: &Expr) -> bool
    ensures { IsTrue result ↔ IsCond (expr_shown test.now) mark.now colon.now
        (expr_shown other.now) }
{
    binds_at(OR_OR_LEVEL, test)
        && is_op(mark, QUESTION)
        && is_op(colon, COLON)
        && binds_at(CONDITIONAL_LEVEL, other)
}

pub(crate) fn is_binary(left: &Expr, op: &Tok, right: &Expr) -> bool
    ensures { IsTrue result ↔ IsBinary (expr_shown left.now) op.now (expr_shown right.now) }
{
    let level = binary_level(op);
    OR_OR_LEVEL <= level && binds_at(level, left) && level < expr_level(right)
}

pub(crate) fn is_instance(operand: &Expr, word: &Tok) -> bool
    ensures { IsTrue result ↔ IsInstance (expr_shown operand.now) word.now }
{
    binds_at(COMPARISON_LEVEL, operand) && is_key(word, INSTANCEOF)
}

pub(crate) fn is_unary(op: &Tok, operand: &Expr) -> bool
    ensures { IsTrue result ↔ IsUnary op.now (expr_shown operand.now) }
{
    is_op_of(op, &PREFIXES) && binds_at(UNARY_LEVEL, operand)
}

#[tactic(auto, using(rf_jfit::proofs::ExprFirstLemmas::BeginsOperand_yield))]
fn begins_with_operand(expr: &Expr) -> bool
    ensures { IsTrue result ↔ BeginsOperand (expr_yield (expr_shown expr.now)) }
{
    begins_operand(expr_first(expr))
}

fn cast_takes(used_type: &TypeUse, operand: &Expr) -> bool
    ensures { IsTrue result
        ↔ CastTakes (type_shown used_type.now).base (type_shown used_type.now).dims.list
        (expr_yield (expr_shown operand.now)) }
{
    match &used_type.base {
        TypeBase::Prim(_) => match used_type.dims.list.as_slice() {
            [] => true,
            [_, ..] => begins_with_operand(operand),
        },
        TypeBase::Named(_) => begins_with_operand(operand),
    }
}

pub(crate) fn is_cast(left: &Tok, used_type: &TypeUse, right: &Tok, operand: &Expr) -> bool
    ensures { IsTrue result ↔ IsCast left.now (type_shown used_type.now) right.now
        (expr_shown operand.now) }
{
    are_parens(left, right) && binds_at(UNARY_LEVEL, operand) && cast_takes(used_type, operand)
}

pub(crate) fn is_postfix(operand: &Expr, op: &Tok) -> bool
    ensures { IsTrue result ↔ IsPostfix (expr_shown operand.now) op.now }
{
    binds_at(POSTFIX_LEVEL, operand) && is_op_of(op, &SUFFIXES)
}

pub(crate) fn is_on(operand: &Expr, dot: &Tok) -> bool
    ensures { IsTrue result ↔ IsOn (expr_shown operand.now) dot.now }
{
    binds_at(PRIMARY_LEVEL, operand) && is_op(dot, DOT)
}

pub(crate) fn is_field(operand: &Expr, dot: &Tok, id: &Tok) -> bool
    ensures { IsTrue result ↔ IsField (expr_shown operand.now) dot.now id.now }
{
    binds_at(PRIMARY_LEVEL, operand) && is_no_name(operand) && is_op(dot, DOT) && is_ident(id)
}

pub(crate) fn is_super(word: &Tok, dot: &Tok, id: &Tok) -> bool
    ensures { IsTrue result ↔ IsSuper word.now dot.now id.now }
{
    is_key(word, SUPER) && is_op(dot, DOT) && is_ident(id)
}

pub(crate) fn is_index(operand: &Expr, left: &Tok, right: &Tok) -> bool
    ensures { IsTrue result ↔ IsIndex (expr_shown operand.now) left.now right.now }
{
    binds_at(PRIMARY_LEVEL, operand) && is_no_new_array(operand) && are_brackets(left, right)
}
