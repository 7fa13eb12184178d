ghost use Rattle.std.specs.Prelude.{IfOk};
ghost use Rattle.rf_jmake.specs.ExprMade.{boxed_shown};
ghost use Rattle.rf_jmake.specs.Continuations.{operated, suffixed};
ghost use Rattle.rf_jexpr.specs.Made.{IsJoined};

use crate::found::Found;
use rf_jmake::continuations;
use rf_jmake::continuations::{Continuation, Suffix};
use rf_jtree::Expr;
use rf_text::Memory;
use std::alloc::Global;

// What stands behind an expression and takes it into a greater one; its depth is that of the greater one.

pub(crate) fn operated(
    alloc: Global,
    left: Found<Box<Expr>>,
    continuation: Found<Continuation>,
) -> Result<Found<Box<Expr>>, Memory>
    ensures { IfOk result (IsJoined (operated (boxed_shown left.tree)) continuation) }
{
    let tree = continuations::operated(alloc, left.tree, continuation.tree)?;
    Ok(Found {
        tree,
        end: continuation.end,
        depth: continuation.depth,
    })
}

pub(crate) fn suffixed(
    alloc: Global,
    on: Found<Box<Expr>>,
    continuation: Found<Suffix>,
) -> Result<Found<Box<Expr>>, Memory>
    ensures { IfOk result (IsJoined (suffixed (boxed_shown on.tree)) continuation) }
{
    let tree = continuations::suffixed(alloc, on.tree, continuation.tree)?;
    Ok(Found {
        tree,
        end: continuation.end,
        depth: continuation.depth,
    })
}
