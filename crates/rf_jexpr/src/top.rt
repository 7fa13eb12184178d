ghost use Rattle.std.specs.Prelude.{◌≡◌, ◌≤◌, ◌<◌, ◌+◌, drop};
ghost use Rattle.rf_jtree.specs.ExprTrees.{expr_depth, init_depth};
ghost use Rattle.rf_jexpr.specs.Descent.{parsers, choice, assignment};
ghost use Rattle.rf_jexpr.specs.Gives.{GivesTree, GivesExpr};
ghost use Rattle.rf_jmake.specs.ExprMade.{boxed_shown, boxed_init_shown};
ghost use Rattle.rf_jexpr.specs.Made.{IsKnown};
ghost use Rattle.rf_jmake.specs.Continuations.{assigned, chosen};

use crate::ParseErr;
use crate::binary::binary;
use crate::cursor::{Want, is_at, take};
use crate::found::{Found, attempt, deeper};
use crate::parts::braces;
use crate::shapes::is_assignable;
use rf_jmake::continuations::{Choice, Operation, assigned, chosen};
use rf_jmake::exprs::{braced_of, initializer_of};
use rf_jtree::levels::OR_OR_LEVEL;
use rf_jtree::operator_names::{COLON, LEFT_BRACE, QUESTION};
use rf_jtree::{Expr, Init, Tok};
use std::alloc::Global;

/// `? first : other` behind a test (JLS 15.25).
#[cycle(expr)]
#[tactic(auto, unfolding(crate::specs::Descent::choice, crate::specs::Reads::and_then, crate::specs::Reads::when))]
fn choice(
    alloc: Global,
    t: &[Tok],
    room: u32,
    test: &Found<Box<Expr>>,
) -> Result<Found<Choice>, ParseErr>
    requires { IsKnown test.now }
    ensures { GivesTree (chosen (boxed_shown test.now.tree)) expr_depth (room + 1) t.now
        test.now.end result (choice room (parsers room) (boxed_shown test.now.tree)
        (drop test.now.end t.now)) }
{
    if (room as usize) < test.depth {
        return Err(ParseErr::NoTree);
    }
    let mark = take(alloc, t, test.end, Want::Op(QUESTION))?;
    let first = expr(alloc, t, mark.end, room)?;
    let colon = take(alloc, t, first.end, Want::Op(COLON))?;
    let other = conditional(alloc, t, colon.end, room)?;
    Ok(Found {
        tree: Choice {
            mark: mark.item,
            first: first.tree,
            colon: colon.item,
            other: other.tree,
        },
        end: other.end,
        depth: deeper(test.depth, deeper(first.depth, other.depth)) + 1,
    })
}

/// An expression that is no assignment (JLS 15.25).
#[cycle(expr)]
pub(crate) fn conditional(
    alloc: Global,
    t: &[Tok],
    at: usize,
    room: u32,
) -> Result<Found<Box<Expr>>, ParseErr>
    ensures { GivesTree boxed_shown expr_depth room t.now at result
        ((parsers room).conditional (drop at t.now)) }
{
    if room == 0 {
        return Err(ParseErr::NoTree);
    }
    let test = binary(alloc, t, at, room, OR_OR_LEVEL)?;
    let Some(continuation) = attempt(choice(alloc, t, room - 1, &test))? else {
        return Ok(test);
    };
    let tree = chosen(alloc, test.tree, continuation.tree)?;
    Ok(Found {
        tree,
        end: continuation.end,
        depth: continuation.depth,
    })
}

/// An assignment operator and its value behind a left side (JLS 15.26).
#[cycle(expr)]
#[tactic(auto, unfolding(crate::specs::Descent::assignment, crate::specs::Reads::and_then, crate::specs::Reads::when))]
fn assignment(
    alloc: Global,
    t: &[Tok],
    room: u32,
    left: &Found<Box<Expr>>,
) -> Result<Found<Operation>, ParseErr>
    requires { IsKnown left.now }
    ensures { GivesTree (assigned (boxed_shown left.now.tree)) expr_depth (room + 1) t.now
        left.now.end result (assignment room (parsers room) (boxed_shown left.now.tree)
        (drop left.now.end t.now)) }
{
    if !is_assignable(&left.tree) || (room as usize) < left.depth {
        return Err(ParseErr::NoTree);
    }
    let op = take(alloc, t, left.end, Want::Assignment)?;
    let operand = expr(alloc, t, op.end, room)?;
    Ok(Found {
        tree: Operation {
            op: op.item,
            operand: operand.tree,
        },
        end: operand.end,
        depth: deeper(left.depth, operand.depth) + 1,
    })
}

/// An expression no deeper than the room (JLS 15.26).
#[cycle(expr)]
pub(crate) fn expr(
    alloc: Global,
    t: &[Tok],
    at: usize,
    room: u32,
) -> Result<Found<Box<Expr>>, ParseErr>
    ensures { GivesTree boxed_shown expr_depth room t.now at result
        ((parsers room).expr (drop at t.now)) }
{
    if room == 0 {
        return Err(ParseErr::NoTree);
    }
    let left = conditional(alloc, t, at, room)?;
    let Some(continuation) = attempt(assignment(alloc, t, room - 1, &left))? else {
        return Ok(left);
    };
    let tree = assigned(alloc, left.tree, continuation.tree)?;
    Ok(Found {
        tree,
        end: continuation.end,
        depth: continuation.depth,
    })
}

/// What a variable or an item begins with (JLS 8.3, 10.6).
#[cycle(expr)]
#[tactic(auto, using(crate::proofs::RoomLemmas::rooms))]
pub(crate) fn init(
    alloc: Global,
    t: &[Tok],
    at: usize,
    room: u32,
) -> Result<Found<Box<Init>>, ParseErr>
    ensures { GivesTree boxed_init_shown init_depth room t.now at result
        ((parsers room).init (drop at t.now)) }
{
    if room == 0 {
        return Err(ParseErr::NoTree);
    }
    if is_at(t, at, Want::Op(LEFT_BRACE)) {
        let items = braces(alloc, t, at, room - 1)?;
        let braced = braced_of(alloc, items.tree)?;
        return Ok(Found {
            tree: braced,
            end: items.end,
            depth: items.depth + 1,
        });
    }
    let operand = expr(alloc, t, at, room)?;
    let tree = initializer_of(alloc, operand.tree)?;
    Ok(Found {
        tree,
        end: operand.end,
        depth: operand.depth,
    })
}

/// An expression no deeper than the room, and the number of the token behind it.
pub(crate) fn expr_and_end(
    alloc: Global,
    t: &[Tok],
    at: usize,
    room: u32,
) -> Result<(Expr, usize), ParseErr>
    ensures { GivesExpr room t.now at result ((parsers room).expr (drop at t.now)) }
{
    let found = expr(alloc, t, at, room)?;
    Ok((Box::into_inner(found.tree), found.end))
}
