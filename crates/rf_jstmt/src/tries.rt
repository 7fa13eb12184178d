ghost use Rattle.std.specs.Prelude.{◌≡◌, ◌≤◌, ◌<◌, drop, length, IfOk};
ghost use Rattle.rf_jtree.specs.StmtShown.{catch_shown, catches_tree, last_shown};
ghost use Rattle.rf_jtree.specs.StmtTrees.{catch_depth, last_depth};
ghost use Rattle.rf_jexpr.specs.Gives.{Gives, GivesTree, IsFound};
ghost use Rattle.rf_jexpr.specs.Reads.{many};
ghost use Rattle.rf_jmake.specs.StmtMade.{catches_found};
ghost use Rattle.rf_jstmt.specs.StmtGives.{catch_head_shown, catches_found_depth, GivesForm};
ghost use Rattle.rf_jstmt.specs.StmtParts.{catch_head};
ghost use Rattle.rf_jstmt.specs.StmtReads.{stmt_parsers, sync_stmt, catch_part, last_part, last, has_part, try_stmt};

use crate::blocks::body;
use crate::heads::head_at;
use rf_jexpr::{
    Found, ParseErr, Taken, Want, attempt, deeper, grown, is_at, name, pair, pair_found, take,
    take_if,
};
use rf_jmake::put;
use rf_jmake::stmts::{CatchHead, catch_of, sync_of, try_of};
use rf_jtree::keyword_names::{CATCH, FINAL, FINALLY, SYNCHRONIZED, TRY};
use rf_jtree::operator_names::{LEFT_PAREN, RIGHT_PAREN};
use rf_jtree::{Block, Catch, Stmt, Tok};
use rf_text::{List, Memory};
use std::alloc::Global;

// In each function, `room` is what is left for the parts, so that a statement itself has one more.

/// `synchronized (..) {..}` (JLS 14.19).
#[cycle(stmt)]
#[tactic(auto, unfolding(crate::specs::StmtReads::sync_stmt, rf_jexpr::specs::Reads::and_then))]
pub(crate) fn sync_stmt(
    alloc: Global,
    t: &[Tok],
    at: usize,
    room: u32,
) -> Result<Found<Box<Stmt>>, ParseErr>
    ensures { GivesForm t.now at room result sync_stmt }
{
    let on = head_at(alloc, t, at, room, SYNCHRONIZED)?;
    let block = body(alloc, t, on.end, room)?;
    let tree = sync_of(alloc, on.tree, block.tree)?;
    Ok(Found {
        tree,
        end: block.end,
        depth: deeper(on.depth, block.depth) + 1,
    })
}

/// `catch (..)` (JLS 14.20).
#[tactic(auto, unfolding(crate::specs::StmtParts::catch_head, rf_jexpr::specs::Reads::and_then))]
fn catch_head(alloc: Global, t: &[Tok], at: usize) -> Result<Taken<CatchHead>, ParseErr>
    ensures gives { Gives catch_head_shown t.now at result (catch_head (drop at t.now)) }
    ensures forth { IfOk result (λ x. at < x.end) }
{
    let word = take(alloc, t, at, Want::Key(CATCH))?;
    let left = pair(take(alloc, t, word.end, Want::Op(LEFT_PAREN)), word.item)?;
    let fixed = take_if(alloc, t, left.end, Want::Key(FINAL))?;
    let used_type = pair(name(alloc, t, fixed.end), (left.item, fixed.item))?;
    let id = pair(take(alloc, t, used_type.end, Want::Ident), used_type.item)?;
    let right = pair(take(alloc, t, id.end, Want::Op(RIGHT_PAREN)), id.item)?;
    let (((((first, open), mark), found), variable), close) = right.item;
    Ok(Taken {
        item: CatchHead {
            word: first,
            left: open,
            fixed: mark,
            name: found,
            id: variable,
            right: close,
        },
        end: right.end,
    })
}

/// A catch clause (JLS 14.20).
#[cycle(stmt)]
#[tactic(auto, unfolding(crate::specs::StmtReads::catch_part, rf_jexpr::specs::Reads::and_then))]
fn catch_part(alloc: Global, t: &[Tok], at: usize, room: u32) -> Result<Found<Catch>, ParseErr>
    ensures gives { GivesTree catch_shown catch_depth room t.now at result
        (catch_part (stmt_parsers room) (drop at t.now)) }
    ensures forth { IfOk result (λ x. at < x.end) }
{
    let head = catch_head(alloc, t, at)?;
    let block = body(alloc, t, head.end, room)?;
    Ok(Found {
        tree: catch_of(head.item, block.tree),
        end: block.end,
        depth: block.depth,
    })
}

/// Catch clauses, as many as stand there (JLS 14.20).
#[cycle(stmt)]
fn catches(alloc: Global, t: &[Tok], at: usize, room: u32) -> Result<Found<List<Catch>>, Memory>
    requires { at ≤ length t.now }
    ensures { IfOk result (IsFound catches_found catches_found_depth room t.now at
        (many (catch_part (stmt_parsers room)) (drop at t.now))) }
{
    let mut list = Found {
        tree: List::new(alloc),
        end: at,
        depth: 0,
    };
    'items: while let Some(next) = attempt(catch_part(alloc, t, list.end, room))? {
        list = grown(list, next)?;
    }
    Ok(list)
}

/// `finally` and its block (JLS 14.20.2).
#[cycle(stmt)]
#[tactic(auto, unfolding(crate::specs::StmtReads::last_part, rf_jexpr::specs::Reads::and_then))]
fn last_part(
    alloc: Global,
    t: &[Tok],
    at: usize,
    room: u32,
) -> Result<Found<Option<(Tok, Box<Block>)>>, ParseErr>
    ensures { GivesTree last_shown last_depth room t.now at result
        (last_part (stmt_parsers room) (drop at t.now)) }
{
    let word = take(alloc, t, at, Want::Key(FINALLY))?;
    let block = body(alloc, t, word.end, room)?;
    Ok(Found {
        tree: Some((word.item, put(alloc, block.tree)?)),
        end: block.end,
        depth: block.depth,
    })
}

/// `finally` and its block, where it stands (JLS 14.20.2).
#[cycle(stmt)]
#[tactic(auto, unfolding(crate::specs::StmtReads::last))]
fn last(
    alloc: Global,
    t: &[Tok],
    at: usize,
    room: u32,
) -> Result<Found<Option<(Tok, Box<Block>)>>, ParseErr>
    requires { at ≤ length t.now }
    ensures { GivesTree last_shown last_depth room t.now at result
        (last (stmt_parsers room) (drop at t.now)) }
{
    if !is_at(t, at, Want::Key(FINALLY)) {
        return Ok(Found::left_out(at));
    }
    last_part(alloc, t, at, room)
}

/// Whether a `try` has one of its other parts.
#[tactic(auto, unfolding(crate::specs::StmtReads::has_part))]
fn has_part(catches: &List<Catch>, last: &Option<(Tok, Box<Block>)>) -> bool
    ensures { result ≡ has_part (catches_tree (catches_found catches.now)) (last_shown last.now) }
{
    match catches.as_slice() {
        [] => last.is_some(),
        [_, ..] => true,
    }
}

/// A `try` with one of its other parts at least (JLS 14.20).
#[cycle(stmt)]
#[tactic(auto, unfolding(crate::specs::StmtReads::try_stmt, rf_jexpr::specs::Reads::and_then, rf_jexpr::specs::Reads::when))]
pub(crate) fn try_stmt(
    alloc: Global,
    t: &[Tok],
    at: usize,
    room: u32,
) -> Result<Found<Box<Stmt>>, ParseErr>
    ensures { GivesForm t.now at room result (λ p s. try_stmt s) }
{
    let word = take(alloc, t, at, Want::Key(TRY))?;
    let block = pair_found(body(alloc, t, word.end, room), word.item)?;
    let parts = catches(alloc, t, block.end, room)?;
    let end = last(alloc, t, parts.end, room)?;
    if !has_part(&parts.tree, &end.tree) {
        return Err(ParseErr::NoTree);
    }
    let (word, body) = block.tree;
    let tree = try_of(alloc, word, body, parts.tree, end.tree)?;
    Ok(Found {
        tree,
        end: end.end,
        depth: deeper(block.depth, deeper(parts.depth, end.depth)) + 1,
    })
}
