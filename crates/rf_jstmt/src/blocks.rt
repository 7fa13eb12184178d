ghost use Rattle.std.specs.Prelude.{◌≤◌, drop, length, IfOk};
ghost use Rattle.rf_jtree.specs.StmtShown.{stmts_shown, block_shown};
ghost use Rattle.rf_jtree.specs.StmtTrees.{stmts_depth, block_depth};
ghost use Rattle.rf_jexpr.specs.Gives.{GivesTree, IsFound};
ghost use Rattle.rf_jstmt.specs.StmtParts.{stmts, block};
ghost use Rattle.rf_jstmt.specs.StmtReads.{stmt_parsers, block_alone};
ghost use Rattle.rf_jstmt.specs.StmtGives.{GivesForm};

use crate::top::block_stmt;
use rf_jexpr::{Found, ParseErr, Want, attempt, joined, take};
use rf_jmake::stmts::{block_of, braces_of};
use rf_jtree::operator_names::{LEFT_BRACE, RIGHT_BRACE};
use rf_jtree::{Block, Stmt, Tok};
use rf_text::{List, Memory};
use std::alloc::Global;

/// Statements, as many as stand there, each no deeper than the room (JLS 14.2).
#[cycle(stmt)]
pub fn stmts(alloc: Global, t: &[Tok], at: usize, room: u32) -> Result<Found<List<Stmt>>, Memory>
    requires { at ≤ length t.now }
    ensures { IfOk result (IsFound stmts_shown stmts_depth room t.now at
        (stmts (stmt_parsers room) (drop at t.now))) }
{
    let mut list = Found {
        tree: List::new(alloc),
        end: at,
        depth: 0,
    };
    'items: while let Some(next) = attempt(block_stmt(alloc, t, list.end, room))? {
        list = joined(list, next)?;
    }
    Ok(list)
}

/// Statements in braces, as the body of a method and the like, each no deeper than the room (JLS 14.2).
#[cycle(stmt)]
#[tactic(auto, unfolding(crate::specs::StmtParts::block, rf_jexpr::specs::Reads::and_then))]
pub fn body(alloc: Global, t: &[Tok], at: usize, room: u32) -> Result<Found<Block>, ParseErr>
    ensures { GivesTree block_shown block_depth room t.now at result
        (block (stmt_parsers room) (drop at t.now)) }
{
    let left = take(alloc, t, at, Want::Op(LEFT_BRACE))?;
    let list = stmts(alloc, t, left.end, room)?;
    let right = take(alloc, t, list.end, Want::Op(RIGHT_BRACE))?;
    Ok(Found {
        tree: braces_of(left.item, list.tree, right.item),
        end: right.end,
        depth: list.depth,
    })
}

/// Statements in braces as a statement of their own (JLS 14.2).
#[cycle(stmt)]
#[tactic(auto, unfolding(crate::specs::StmtReads::block_alone, rf_jexpr::specs::Reads::and_then))]
pub(crate) fn block_alone(
    alloc: Global,
    t: &[Tok],
    at: usize,
    room: u32,
) -> Result<Found<Box<Stmt>>, ParseErr>
    ensures { GivesForm t.now at room result (λ p s. block_alone s) }
{
    let block = body(alloc, t, at, room)?;
    let tree = block_of(alloc, block.tree)?;
    Ok(Found {
        tree,
        end: block.end,
        depth: block.depth + 1,
    })
}
