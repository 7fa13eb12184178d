ghost use Rattle.std.specs.Prelude.{◌≡◌, ◌≤◌, drop, length, option_map};
ghost use Rattle.rf_jtree.specs.ExprShown.{exprs_shown};
ghost use Rattle.rf_jtree.specs.ExprTrees.{expr_depth, exprs_depth};
ghost use Rattle.rf_jtree.specs.NameTrees.{option_depth};
ghost use Rattle.rf_jexpr.specs.Descent.{parsers};
ghost use Rattle.rf_jexpr.specs.Gives.{GivesTree};
ghost use Rattle.rf_jmake.specs.ExprMade.{boxed_shown};
ghost use Rattle.rf_jexpr.specs.Reads.{begins};
ghost use Rattle.rf_jexpr.specs.Stops.{begins_expr};
ghost use Rattle.rf_jstmt.specs.StmtMade.{head_shown, head_depth};
ghost use Rattle.rf_jstmt.specs.StmtParts.{head, optional_expr, statement_exprs};
ghost use Rattle.rf_jstmt.specs.StmtTests.{is_statement_expr, are_statement_exprs};

use rf_jexpr::{Found, ParseErr, Want, boxed_expr, exprs, take, tok_at};
use rf_jfit::{are_statement_exprs, begins_operand, is_op_of, is_statement_expr};
use rf_jmake::put;
use rf_jtree::operator_names::{LEFT_PAREN, PREFIXES, RIGHT_PAREN};
use rf_jtree::{Expr, Head, Kw, Many, Tok};
use std::alloc::Global;

/// `key (value)`, as `if`, `while`, `switch` and `synchronized` have it.
#[tactic(auto, unfolding(crate::specs::StmtParts::head, rf_jexpr::specs::Reads::and_then))]
pub(crate) fn head_at(
    alloc: Global,
    t: &[Tok],
    at: usize,
    room: u32,
    key: Kw,
) -> Result<Found<Box<Head>>, ParseErr>
    ensures { GivesTree head_shown head_depth room t.now at result
        (head (parsers room) key (drop at t.now)) }
{
    let word = take(alloc, t, at, Want::Key(key))?;
    let left = take(alloc, t, word.end, Want::Op(LEFT_PAREN))?;
    let expression = boxed_expr(alloc, t, left.end, room)?;
    let right = take(alloc, t, expression.end, Want::Op(RIGHT_PAREN))?;
    let head = Head {
        word: word.item,
        left: left.item,
        expression: expression.tree,
        right: right.item,
    };
    Ok(Found {
        tree: put(alloc, head)?,
        end: right.end,
        depth: expression.depth,
    })
}

#[tactic(auto, unfolding(rf_jexpr::specs::Stops::begins_expr))]
fn begins_expr(tok: &Tok) -> bool
    ensures { result ≡ begins_expr tok.now }
{
    begins_operand(tok) || is_op_of(tok, &PREFIXES)
}

/// Whether the token at this place is there and an expression may begin with it (JLS 15).
#[tactic(auto, using(rf_jexpr::proofs::CursorLemmas::places))]
pub(crate) fn begins_expr_at(t: &[Tok], at: usize) -> bool
    ensures { result ≡ begins begins_expr (drop at t.now) }
{
    match tok_at(t, at) {
        Some(tok) => begins_expr(tok),
        None => false,
    }
}

/// An expression where one begins.
#[tactic(auto, unfolding(crate::specs::StmtParts::optional_expr, rf_jexpr::specs::Reads::and_then))]
pub(crate) fn optional_expr(
    alloc: Global,
    t: &[Tok],
    at: usize,
    room: u32,
) -> Result<Found<Option<Box<Expr>>>, ParseErr>
    requires { at ≤ length t.now }
    ensures { GivesTree (option_map boxed_shown) (option_depth expr_depth) room t.now at result
        (optional_expr (parsers room) (drop at t.now)) }
{
    if !begins_expr_at(t, at) {
        return Ok(Found::left_out(at));
    }
    let expression = boxed_expr(alloc, t, at, room)?;
    Ok(Found {
        tree: Some(expression.tree),
        end: expression.end,
        depth: expression.depth,
    })
}

/// Whether an expression may stand as a statement (JLS 14.8).
pub(crate) fn is_statement(expr: &Box<Expr>) -> bool
    ensures { result ≡ is_statement_expr (boxed_shown expr.now) }
{
    is_statement_expr(&**expr)
}

/// Whether there are expressions and each may stand as a statement (JLS 14.14.1).
fn are_statements(list: &Option<Many<Expr>>) -> bool
    ensures { result ≡ are_statement_exprs (exprs_shown list.now) }
{
    are_statement_exprs(list)
}

/// Expressions that stand as statements, where one begins (JLS 14.14.1).
pub(crate) fn statement_exprs(
    alloc: Global,
    t: &[Tok],
    at: usize,
    room: u32,
) -> Result<Found<Option<Many<Expr>>>, ParseErr>
    requires { at ≤ length t.now }
    ensures { GivesTree exprs_shown exprs_depth room t.now at result
        (statement_exprs (parsers room) (drop at t.now)) }
{
    if !begins_expr_at(t, at) {
        return Ok(Found::left_out(at));
    }
    let list = exprs(alloc, t, at, room)?;
    if list.tree.is_none() {
        return Err(ParseErr::NoTree);
    }
    if !are_statements(&list.tree) {
        return Err(ParseErr::NoTree);
    }
    Ok(list)
}
