ghost use Rattle.std.specs.Prelude.{◌≡◌, ◌≤◌, ◌<◌, ◌+◌, ◌^◌, drop, length, IfOk};
ghost use Rattle.rf_jtree.specs.ExprTrees.{Postfix, expr_depth};
ghost use Rattle.rf_jtree.specs.NameShown.{type_shown};
ghost use Rattle.rf_jexpr.specs.Descent.{parsers, step, postfix, prefixed, is_primitive, casts, cast};
ghost use Rattle.rf_jexpr.specs.Gives.{Gives, GivesTree, IsFound};
ghost use Rattle.rf_jmake.specs.ExprMade.{boxed_shown};
ghost use Rattle.rf_jexpr.specs.Made.{IsKnown, IsStepped};
ghost use Rattle.rf_jexpr.specs.Reads.{chain};

use crate::ParseErr;
use crate::cursor::{Want, is_at, take, tok_at};
use crate::found::{Found, Taken, attempt};
use crate::names::type_use;
use crate::primary::primary;
use rf_jfit::begins_operand;
use rf_jmake::exprs::{cast_of, postfix_of, prefixed_of};
use rf_jtree::operator_names::{LEFT_PAREN, RIGHT_PAREN};
use rf_jtree::{Expr, Tok, TypeBase, TypeUse};
use rf_text::Memory;
use std::alloc::Global;

/// `++` or `--` behind an operand (JLS 15.14).
#[tactic(auto, unfolding(crate::specs::Descent::step, crate::specs::Reads::and_then, crate::specs::Reads::when))]
fn step(
    alloc: Global,
    t: &[Tok],
    room: u32,
    operand: &Found<Box<Expr>>,
) -> Result<Taken<Tok>, ParseErr>
    requires { IsKnown operand.now }
    ensures gives { Gives (Postfix (boxed_shown operand.now.tree)) t.now operand.now.end result
        (step room (boxed_shown operand.now.tree) (drop operand.now.end t.now)) }
    ensures shallow { IfOk result (λ x. operand.now.depth ≤ room) }
{
    if (room as usize) < operand.depth {
        return Err(ParseErr::NoTree);
    }
    take(alloc, t, operand.end, Want::Suffix)
}

fn stepped(
    alloc: Global,
    operand: Found<Box<Expr>>,
    op: Taken<Tok>,
) -> Result<Found<Box<Expr>>, Memory>
    requires { operand.depth < 2 ^ 62 }
    ensures { IfOk result (IsStepped operand op) }
{
    let tree = postfix_of(alloc, operand.tree, op.item)?;
    Ok(Found {
        tree,
        end: op.end,
        depth: operand.depth + 1,
    })
}

/// `++` and `--` behind an operand, as many as stand there (JLS 15.14).
#[tactic(auto)]
fn steps(
    alloc: Global,
    t: &[Tok],
    room: u32,
    first: Found<Box<Expr>>,
) -> Result<Found<Box<Expr>>, Memory>
    requires known { IsKnown first }
    requires shallow { first.depth ≤ room + 1 }
    requires within { first.end ≤ length t.now }
    ensures { IfOk result (IsFound boxed_shown expr_depth (room + 1) t.now first.end
        (chain (step room) (room + 1) (boxed_shown first.tree) (drop first.end t.now))) }
{
    let mut operand = first;
    'steps: while let Some(op) = attempt(step(alloc, t, room, &operand))? {
        operand = stepped(alloc, operand, op)?;
    }
    Ok(operand)
}

/// A primary expression, with `++` and `--` behind it or without (JLS 15.14).
#[cycle(expr)]
#[tactic(auto, unfolding(crate::specs::Descent::postfix, crate::specs::Reads::and_then))]
fn postfix(alloc: Global, t: &[Tok], at: usize, room: u32) -> Result<Found<Box<Expr>>, ParseErr>
    ensures { GivesTree boxed_shown expr_depth (room + 1) t.now at result
        (postfix room (parsers room) (drop at t.now)) }
{
    let operand = primary(alloc, t, at, room)?;
    let found = steps(alloc, t, room, operand)?;
    Ok(found)
}

/// A prefix operator and its operand (JLS 15.15).
#[cycle(expr)]
#[tactic(auto, unfolding(crate::specs::Descent::prefixed, crate::specs::Reads::and_then))]
fn prefixed(alloc: Global, t: &[Tok], at: usize, room: u32) -> Result<Found<Box<Expr>>, ParseErr>
    ensures { GivesTree boxed_shown expr_depth (room + 1) t.now at result
        (prefixed (parsers room) (drop at t.now)) }
{
    let op = take(alloc, t, at, Want::Prefix)?;
    let operand = unary(alloc, t, op.end, room)?;
    let tree = prefixed_of(alloc, op.item, operand.tree)?;
    Ok(Found {
        tree,
        end: operand.end,
        depth: operand.depth + 1,
    })
}

/// Whether it is a primitive type without brackets.
#[tactic(auto, unfolding(crate::specs::Descent::is_primitive))]
fn is_primitive(used_type: &TypeUse) -> bool
    ensures { result ≡ is_primitive (type_shown used_type.now) }
{
    match used_type.base {
        TypeBase::Prim(_) => used_type.dims.list.is_empty(),
        TypeBase::Named(_) => false,
    }
}

/// Whether this type in parentheses is a cast of what stands there (JLS 15.16).
#[tactic(auto, using(crate::proofs::CursorLemmas::places), unfolding(crate::specs::Descent::casts))]
fn casts(t: &[Tok], at: usize, used_type: &TypeUse) -> bool
    ensures { result ≡ casts (type_shown used_type.now) (drop at t.now) }
{
    if is_primitive(used_type) {
        return true;
    }
    match tok_at(t, at) {
        Some(tok) => begins_operand(tok),
        None => false,
    }
}

/// A cast (JLS 15.16).
#[cycle(expr)]
#[tactic(auto, unfolding(crate::specs::Descent::cast, crate::specs::Reads::and_then, crate::specs::Reads::when))]
fn cast(alloc: Global, t: &[Tok], at: usize, room: u32) -> Result<Found<Box<Expr>>, ParseErr>
    ensures { GivesTree boxed_shown expr_depth (room + 1) t.now at result
        (cast (parsers room) (drop at t.now)) }
{
    let left = take(alloc, t, at, Want::Op(LEFT_PAREN))?;
    let used_type = type_use(alloc, t, left.end)?;
    let right = take(alloc, t, used_type.end, Want::Op(RIGHT_PAREN))?;
    if !casts(t, right.end, &used_type.item) {
        return Err(ParseErr::NoTree);
    }
    let operand = unary(alloc, t, right.end, room)?;
    let tree = cast_of(alloc, left.item, used_type.item, right.item, operand.tree)?;
    Ok(Found {
        tree,
        end: operand.end,
        depth: operand.depth + 1,
    })
}

/// An operand of a binary operator (JLS 15.15).
#[cycle(expr)]
#[tactic(auto, using(crate::proofs::RoomLemmas::rooms))]
pub(crate) fn unary(
    alloc: Global,
    t: &[Tok],
    at: usize,
    room: u32,
) -> Result<Found<Box<Expr>>, ParseErr>
    ensures { GivesTree boxed_shown expr_depth room t.now at result
        ((parsers room).unary (drop at t.now)) }
{
    if room == 0 {
        return Err(ParseErr::NoTree);
    }
    if is_at(t, at, Want::Prefix) {
        return prefixed(alloc, t, at, room - 1);
    }
    let Some(found) = attempt(cast(alloc, t, at, room - 1))? else {
        return postfix(alloc, t, at, room - 1);
    };
    Ok(found)
}
