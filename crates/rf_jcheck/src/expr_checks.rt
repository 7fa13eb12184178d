#![tactic(auto, using(rf_jtree::proofs::ExprShows::expr_shows))]

ghost use Rattle.std.specs.Prelude.{◌↔◌, IsTrue, IfSome, Some};
ghost use Rattle.rf_jtree.specs.Kinds.{IsOp};
ghost use Rattle.rf_jtree.specs.ExprFits.{ExprFits, OnFits, ArgsFit, SuperArgsFit, ExprsFit, MoreExprsFit, SizesFit, InitFits, BracesFit, InitsFit, MoreInitsFit, HasSize, HasBrackets};
ghost use Rattle.rf_jtree.specs.ExprShown.{expr_shown, on_shown, args_shown, super_args_shown, exprs_shown, more_exprs_shown, sizes_shown, init_shown, braces_shown, inits_shown, more_inits_shown};

use crate::form_checks::{
    is_assign, is_binary, is_cast, is_cond, is_field, is_index, is_instance, is_on, is_postfix,
    is_super, is_unary,
};
use crate::name_checks::{
    are_braces, are_brackets, are_parens, base_fits, dims_fit, name_fits, type_fits,
};
use rf_jfit::{is_ident, is_key, is_literal, is_op};
use rf_jtree::keyword_names::{NEW, THIS};
use rf_jtree::operator_names::COMMA;
use rf_jtree::{Args, Braces, Dims, Expr, Init, Many, Tok};
use rf_text::List;

/// Whether an expression fits. It goes as deep as the expression.
#[cycle(expr)]
pub fn expr_fits(expr: &Expr) -> bool
    ensures { IsTrue result ↔ ExprFits (expr_shown expr.now) }
{
    match expr {
        Expr::Assign(left, op, operand) => is_assign(left, op)
            && expr_fits(left)
            && expr_fits(operand),
        Expr::Cond(test, mark, then, colon, other) => {
            is_cond(test, mark, colon, other)
                && expr_fits(test)
                && expr_fits(then)
                && expr_fits(other)
        }
        Expr::Binary(left, op, right) => is_binary(left, op, right)
            && expr_fits(left)
            && expr_fits(right),
        Expr::Instance(operand, word, used_type) => is_instance(operand, word)
            && expr_fits(operand)
            && type_fits(used_type),
        Expr::Unary(op, operand) => is_unary(op, operand) && expr_fits(operand),
        Expr::Cast(left, used_type, right, operand) => {
            is_cast(left, used_type, right, operand) && type_fits(used_type) && expr_fits(operand)
        }
        Expr::Postfix(operand, op) => is_postfix(operand, op) && expr_fits(operand),
        Expr::Lit(tok) => is_literal(tok),
        Expr::This(tok) => is_key(tok, THIS),
        Expr::Paren(left, operand, right) => are_parens(left, right) && expr_fits(operand),
        Expr::Name(name) => name_fits(name),
        Expr::Call { on, id, args } => on_fits(on) && is_ident(id) && args_fit(args),
        Expr::Field(operand, dot, id) => is_field(operand, dot, id) && expr_fits(operand),
        Expr::Super {
            word,
            dot,
            id,
            args,
        } => is_super(word, dot, id) && super_args_fit(args),
        Expr::New(word, name, args) => is_key(word, NEW) && name_fits(name) && args_fit(args),
        Expr::Index(operand, left, index, right) => {
            is_index(operand, left, right) && expr_fits(operand) && expr_fits(index)
        }
        Expr::NewArray {
            word,
            base,
            sizes,
            dims,
        } => {
            is_key(word, NEW)
                && base_fits(base)
                && has_size(sizes.as_slice())
                && sizes_fit(sizes.as_slice())
                && dims_fit(dims)
        }
        Expr::NewInit {
            word,
            base,
            dims,
            init,
        } => {
            is_key(word, NEW)
                && base_fits(base)
                && has_brackets(dims)
                && dims_fit(dims)
                && braces_fit(init)
        }
    }
}

#[cycle(expr)]
fn on_fits(on: &Option<Box<(Box<Expr>, Tok)>>) -> bool
    ensures { IsTrue result ↔ OnFits (on_shown on.now) }
{
    match on {
        None => true,
        Some(on) => is_on(&on.0, &on.1) && expr_fits(&on.0),
    }
}

fn has_size(sizes: &[(Tok, Expr, Tok)]) -> bool
    ensures { IsTrue result ↔ HasSize (sizes_shown sizes.now) }
{
    match sizes {
        [] => false,
        [_size, ..] => true,
    }
}

fn has_brackets(dims: &Dims) -> bool
    ensures { IsTrue result ↔ HasBrackets dims.now }
{
    !dims.list.is_empty()
}

/// Whether arguments in parentheses fit.
#[cycle(expr)]
#[tactic(auto, using(rf_jtree::proofs::ExprShows::args_shown_out))]
pub fn args_fit(args: &Args) -> bool
    ensures { IsTrue result ↔ ArgsFit (args_shown args.now) }
{
    are_parens(&args.left, &args.right) && exprs_fit(&args.list)
}

#[cycle(expr)]
fn super_args_fit(args: &Option<Box<Args>>) -> bool
    ensures { IsTrue result ↔ SuperArgsFit (super_args_shown args.now) }
{
    match args {
        None => true,
        Some(args) => args_fit(args),
    }
}

/// Whether expressions with commas between them fit.
#[cycle(expr)]
pub fn exprs_fit(exprs: &Option<Many<Expr>>) -> bool
    ensures { IsTrue result ↔ ExprsFit (exprs_shown exprs.now) }
{
    match exprs {
        None => true,
        Some(many) => many_exprs_fit(many),
    }
}

#[cycle(expr)]
fn many_exprs_fit(exprs: &Many<Expr>) -> bool
    ensures { IsTrue result ↔ ExprsFit (exprs_shown (Some exprs.now)) }
{
    expr_fits(&exprs.first) && more_exprs_fit(&exprs.rest)
}

#[cycle(expr)]
fn more_exprs_fit(rest: &List<(Tok, Expr)>) -> bool
    ensures { IsTrue result ↔ MoreExprsFit (more_exprs_shown rest.now) }
{
    for item in rest.as_slice() {
        if !(is_op(&item.0, COMMA) && expr_fits(&item.1)) {
            return false;
        }
    }
    true
}

#[cycle(expr)]
fn sizes_fit(sizes: &[(Tok, Expr, Tok)]) -> bool
    ensures { IsTrue result ↔ SizesFit (sizes_shown sizes.now) }
{
    for size in sizes {
        if !(are_brackets(&size.0, &size.2) && expr_fits(&size.1)) {
            return false;
        }
    }
    true
}

/// Whether what a variable or an array item begins with fits.
#[cycle(expr)]
pub fn init_fits(init: &Init) -> bool
    ensures { IsTrue result ↔ InitFits (init_shown init.now) }
{
    match init {
        Init::Expression(operand) => expr_fits(operand),
        Init::Braced(braces) => braces_fit(braces),
    }
}

/// Whether items in braces fit.
#[cycle(expr)]
#[tactic(auto, using(rf_jtree::proofs::ExprShows::braces_shown_out))]
pub fn braces_fit(braces: &Braces) -> bool
    ensures { IsTrue result ↔ BracesFit (braces_shown braces.now) }
{
    are_braces(&braces.left, &braces.right)
        && is_comma_or_none(&braces.comma)
        && inits_fit(&braces.items)
}

#[cycle(expr)]
fn inits_fit(inits: &Option<Many<Init>>) -> bool
    ensures { IsTrue result ↔ InitsFit (inits_shown inits.now) }
{
    match inits {
        None => true,
        Some(many) => many_inits_fit(many),
    }
}

#[cycle(expr)]
fn many_inits_fit(inits: &Many<Init>) -> bool
    ensures { IsTrue result ↔ InitsFit (inits_shown (Some inits.now)) }
{
    init_fits(&inits.first) && more_inits_fit(&inits.rest)
}

#[cycle(expr)]
fn more_inits_fit(rest: &List<(Tok, Init)>) -> bool
    ensures { IsTrue result ↔ MoreInitsFit (more_inits_shown rest.now) }
{
    for item in rest.as_slice() {
        if !(is_op(&item.0, COMMA) && init_fits(&item.1)) {
            return false;
        }
    }
    true
}

fn is_comma_or_none(comma: &Option<Tok>) -> bool
    ensures { IsTrue result ↔ IfSome comma.now (IsOp COMMA) }
{
    match comma {
        None => true,
        Some(comma) => is_op(comma, COMMA),
    }
}
