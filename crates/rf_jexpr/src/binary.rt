ghost use Rattle.std.specs.Prelude.{◌≡◌, ◌≤◌, ◌<◌, ◌+◌, ◌^◌, drop, IfOk};
ghost use Rattle.rf_jtree.specs.ExprShown.{expr_shown};
ghost use Rattle.rf_jtree.specs.ExprTrees.{expr_depth};
ghost use Rattle.rf_jtree.specs.Levels.{binary_level};
ghost use Rattle.rf_jexpr.specs.Descent.{parsers, takes_left, instance, operation, operator};
ghost use Rattle.rf_jexpr.specs.Gives.{Gives, GivesTree};
ghost use Rattle.rf_jmake.specs.ExprMade.{boxed_shown};
ghost use Rattle.rf_jexpr.specs.Made.{IsKnown};
ghost use Rattle.rf_jexpr.specs.Reads.{token};
ghost use Rattle.rf_jmake.specs.Continuations.{operated};

use crate::ParseErr;
use crate::continuations::operated;
use crate::cursor::{Want, is_at, take, tok_at};
use crate::found::{Found, Taken, attempt, deeper};
use crate::names::type_use;
use crate::unary::unary;
use rf_jfit::expr_level;
use rf_jfit::levels::binary_level;
use rf_jmake::continuations::{Continuation, Operation};
use rf_jmake::put;
use rf_jtree::keyword_names::INSTANCEOF;
use rf_jtree::levels::COMPARISON_LEVEL;
use rf_jtree::{Expr, Tok};
use std::alloc::Global;

/// Whether it is a binary operator, of this level at least, that takes the expression for its left operand.
#[tactic(auto, unfolding(crate::specs::Descent::takes_left))]
fn takes_left(least: usize, left: &Expr, tok: &Tok) -> bool
    ensures { result ≡ takes_left least (expr_shown left.now) tok.now }
{
    let level = binary_level(tok);
    least <= level && level <= expr_level(left)
}

/// A binary operator that takes the expression in hand for its left operand (JLS 15.17 to 15.24).
#[tactic(auto, using(crate::proofs::CursorLemmas::places))]
fn binary_op(
    alloc: Global,
    t: &[Tok],
    at: usize,
    least: usize,
    left: &Expr,
) -> Result<Taken<Tok>, ParseErr>
    ensures gives { Gives (λ tok. tok) t.now at result
        (token (takes_left least (expr_shown left.now)) (drop at t.now)) }
    ensures forth { IfOk result (λ x. at < x.end) }
{
    let Some(tok) = tok_at(t, at) else {
        return Err(ParseErr::NoTree);
    };
    if !takes_left(least, left, tok) {
        return Err(ParseErr::NoTree);
    }
    let item = tok.copy(alloc)?;
    Ok(Taken { item, end: at + 1 })
}

/// The least level of the right operand: those of one level group to the left.
fn right_level(op: &Tok) -> usize
    ensures { result ≡ binary_level op.now + 1 }
{
    binary_level(op) + 1
}

/// `instanceof` and its type (JLS 15.20.2).
#[tactic(auto, unfolding(crate::specs::Descent::instance, crate::specs::Reads::and_then, crate::specs::Reads::when))]
fn instance(
    alloc: Global,
    t: &[Tok],
    least: usize,
    operand: &Found<Box<Expr>>,
) -> Result<Found<Continuation>, ParseErr>
    requires known { IsKnown operand.now }
    requires small { operand.now.depth < 2 ^ 62 }
    ensures gives { GivesTree (operated (boxed_shown operand.now.tree)) expr_depth
        (operand.now.depth + 1) t.now operand.now.end result
        (instance least (boxed_shown operand.now.tree) (drop operand.now.end t.now)) }
    ensures deeper { IfOk result (λ x. operand.now.depth < x.depth) }
{
    if COMPARISON_LEVEL < least || expr_level(&*operand.tree) < COMPARISON_LEVEL {
        return Err(ParseErr::NoTree);
    }
    let word = take(alloc, t, operand.end, Want::Key(INSTANCEOF))?;
    let used_type = type_use(alloc, t, word.end)?;
    let of = put(alloc, used_type.item)?;
    Ok(Found {
        tree: Continuation::Instance(word.item, of),
        end: used_type.end,
        depth: operand.depth + 1,
    })
}

/// A binary operator and its right operand, behind the left one (JLS 15.17 to 15.24).
#[cycle(expr)]
#[tactic(auto, unfolding(crate::specs::Descent::operation, crate::specs::Reads::and_then))]
fn operation(
    alloc: Global,
    t: &[Tok],
    room: u32,
    least: usize,
    left: &Found<Box<Expr>>,
) -> Result<Found<Continuation>, ParseErr>
    requires known { IsKnown left.now }
    requires shallow { left.now.depth ≤ room }
    ensures gives { GivesTree (operated (boxed_shown left.now.tree)) expr_depth (room + 1) t.now
        left.now.end result (operation (parsers room) least (boxed_shown left.now.tree)
        (drop left.now.end t.now)) }
    ensures deeper { IfOk result (λ x. left.now.depth < x.depth) }
{
    let op = binary_op(alloc, t, left.end, least, &*left.tree)?;
    let operand = binary(alloc, t, op.end, room, right_level(&op.item))?;
    Ok(Found {
        tree: Continuation::Binary(Operation {
            op: op.item,
            operand: operand.tree,
        }),
        end: operand.end,
        depth: deeper(left.depth, operand.depth) + 1,
    })
}

/// A binary operator or `instanceof` and what follows it, behind the left operand.
#[cycle(expr)]
#[tactic(auto, unfolding(crate::specs::Descent::operator, crate::specs::Reads::when))]
fn operator(
    alloc: Global,
    t: &[Tok],
    room: u32,
    least: usize,
    left: &Found<Box<Expr>>,
) -> Result<Found<Continuation>, ParseErr>
    requires { IsKnown left.now }
    ensures gives { GivesTree (operated (boxed_shown left.now.tree)) expr_depth (room + 1) t.now
        left.now.end result (operator room (parsers room) least (boxed_shown left.now.tree)
        (drop left.now.end t.now)) }
    ensures deeper { IfOk result (λ x. left.now.depth < x.depth) }
{
    if (room as usize) < left.depth {
        return Err(ParseErr::NoTree);
    }
    if is_at(t, left.end, Want::Key(INSTANCEOF)) {
        return instance(alloc, t, least, left);
    }
    operation(alloc, t, room, least, left)
}

/// Operands of binary operators of this level and tighter ones (JLS 15.17 to 15.24).
#[cycle(expr)]
pub(crate) fn binary(
    alloc: Global,
    t: &[Tok],
    at: usize,
    room: u32,
    least: usize,
) -> Result<Found<Box<Expr>>, ParseErr>
    ensures { GivesTree boxed_shown expr_depth room t.now at result
        ((parsers room).binary least (drop at t.now)) }
{
    if room == 0 {
        return Err(ParseErr::NoTree);
    }
    let mut left = unary(alloc, t, at, room)?;
    'operators: while let Some(continuation) = attempt(operator(
        alloc,
        t,
        room - 1,
        least,
        &left,
    ))? {
        left = operated(alloc, left, continuation)?;
    }
    Ok(left)
}
