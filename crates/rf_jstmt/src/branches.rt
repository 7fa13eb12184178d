ghost use Rattle.std.specs.Prelude.{◌≡◌, ◌≤◌, ◌<◌, drop, length, IfOk};
ghost use Rattle.rf_jtree.specs.StmtShown.{group_shown, other_shown};
ghost use Rattle.rf_jtree.specs.StmtFits.{ends_open};
ghost use Rattle.rf_jtree.specs.StmtTrees.{group_depth, other_depth};
ghost use Rattle.rf_jexpr.specs.Descent.{parsers};
ghost use Rattle.rf_jexpr.specs.Gives.{GivesTree, IsFound};
ghost use Rattle.rf_jexpr.specs.Reads.{many};
ghost use Rattle.rf_jmake.specs.StmtMade.{groups_found};
ghost use Rattle.rf_jstmt.specs.StmtGives.{groups_found_depth, GivesForm};
ghost use Rattle.rf_jmake.specs.StmtMade.{boxed_stmt_shown};
ghost use Rattle.rf_jstmt.specs.StmtReads.{stmt_parsers, labeled, other_part, other, if_stmt, case_group, default_group, group, switch_stmt};

use crate::blocks::stmts;
use crate::heads::head_at;
use crate::top::stmt;
use rf_jexpr::{Found, ParseErr, Want, attempt, boxed_expr, deeper, grown, is_at, take};
use rf_jfit::ends_open;
use rf_jmake::stmts::{group_of, if_of, label_of, switch_of};
use rf_jtree::keyword_names::{CASE, DEFAULT, ELSE, IF, SWITCH};
use rf_jtree::operator_names::{COLON, LEFT_BRACE, RIGHT_BRACE};
use rf_jtree::{Group, Stmt, Tok};
use rf_text::{List, Memory};
use std::alloc::Global;

// In each function, `room` is what is left for the parts, so that a statement itself has one more.

/// `id: body` (JLS 14.7).
#[cycle(stmt)]
#[tactic(auto, unfolding(crate::specs::StmtReads::labeled, rf_jexpr::specs::Reads::and_then))]
pub(crate) fn labeled(
    alloc: Global,
    t: &[Tok],
    at: usize,
    room: u32,
) -> Result<Found<Box<Stmt>>, ParseErr>
    ensures { GivesForm t.now at room result (λ p s. labeled s) }
{
    let id = take(alloc, t, at, Want::Ident)?;
    let colon = take(alloc, t, id.end, Want::Op(COLON))?;
    let body = stmt(alloc, t, colon.end, room)?;
    let tree = label_of(alloc, id.item, colon.item, body.tree)?;
    Ok(Found {
        tree,
        end: body.end,
        depth: body.depth + 1,
    })
}

/// `else` and its statement (JLS 14.9).
#[cycle(stmt)]
#[tactic(auto, unfolding(crate::specs::StmtReads::other_part, rf_jexpr::specs::Reads::and_then))]
fn other_part(
    alloc: Global,
    t: &[Tok],
    at: usize,
    room: u32,
) -> Result<Found<Option<(Tok, Box<Stmt>)>>, ParseErr>
    ensures { GivesTree other_shown other_depth room t.now at result
        (other_part (stmt_parsers room) (drop at t.now)) }
{
    let word = take(alloc, t, at, Want::Key(ELSE))?;
    let body = stmt(alloc, t, word.end, room)?;
    Ok(Found {
        tree: Some((word.item, body.tree)),
        end: body.end,
        depth: body.depth,
    })
}

/// Whether an `else` behind the statement would go on with it.
fn is_open(stmt: &Box<Stmt>) -> bool
    ensures { result ≡ ends_open (boxed_stmt_shown stmt.now) }
{
    ends_open(&**stmt)
}

/// The `else` of an `if`, where it stands: it belongs to the nearest `if` (JLS 14.5, 14.9).
#[cycle(stmt)]
#[tactic(auto, unfolding(crate::specs::StmtReads::other, rf_jexpr::specs::Reads::when))]
fn other(
    alloc: Global,
    t: &[Tok],
    at: usize,
    room: u32,
    first: &Box<Stmt>,
) -> Result<Found<Option<(Tok, Box<Stmt>)>>, ParseErr>
    requires { at ≤ length t.now }
    ensures { GivesTree other_shown other_depth room t.now at result
        (other (stmt_parsers room) (boxed_stmt_shown first.now) (drop at t.now)) }
{
    if !is_at(t, at, Want::Key(ELSE)) {
        return Ok(Found::left_out(at));
    }
    if is_open(first) {
        return Err(ParseErr::NoTree);
    }
    other_part(alloc, t, at, room)
}

/// `if (..) first`, with an `else` or without (JLS 14.9).
#[cycle(stmt)]
#[tactic(auto, unfolding(crate::specs::StmtReads::if_stmt, rf_jexpr::specs::Reads::and_then))]
pub(crate) fn if_stmt(
    alloc: Global,
    t: &[Tok],
    at: usize,
    room: u32,
) -> Result<Found<Box<Stmt>>, ParseErr>
    ensures { GivesForm t.now at room result if_stmt }
{
    let test = head_at(alloc, t, at, room, IF)?;
    let first = stmt(alloc, t, test.end, room)?;
    let last = other(alloc, t, first.end, room, &first.tree)?;
    let tree = if_of(alloc, test.tree, first.tree, last.tree)?;
    Ok(Found {
        tree,
        end: last.end,
        depth: deeper(test.depth, deeper(first.depth, last.depth)) + 1,
    })
}

/// `case value:` with the statements up to the next label (JLS 14.11).
#[cycle(stmt)]
#[tactic(auto, unfolding(crate::specs::StmtReads::case_group, rf_jexpr::specs::Reads::and_then))]
fn case_group(alloc: Global, t: &[Tok], at: usize, room: u32) -> Result<Found<Group>, ParseErr>
    ensures gives { GivesTree group_shown group_depth room t.now at result
        (case_group (parsers room) (stmt_parsers room) (drop at t.now)) }
    ensures forth { IfOk result (λ x. at < x.end) }
{
    let word = take(alloc, t, at, Want::Key(CASE))?;
    let label = boxed_expr(alloc, t, word.end, room)?;
    let colon = take(alloc, t, label.end, Want::Op(COLON))?;
    let body = stmts(alloc, t, colon.end, room)?;
    Ok(Found {
        tree: group_of(word.item, Some(label.tree), colon.item, body.tree),
        end: body.end,
        depth: deeper(label.depth, body.depth),
    })
}

/// `default:` with the statements up to the next label (JLS 14.11).
#[cycle(stmt)]
#[tactic(auto, unfolding(crate::specs::StmtReads::default_group, rf_jexpr::specs::Reads::and_then))]
fn default_group(alloc: Global, t: &[Tok], at: usize, room: u32) -> Result<Found<Group>, ParseErr>
    ensures gives { GivesTree group_shown group_depth room t.now at result
        (default_group (stmt_parsers room) (drop at t.now)) }
    ensures forth { IfOk result (λ x. at < x.end) }
{
    let word = take(alloc, t, at, Want::Key(DEFAULT))?;
    let colon = take(alloc, t, word.end, Want::Op(COLON))?;
    let body = stmts(alloc, t, colon.end, room)?;
    Ok(Found {
        tree: group_of(word.item, None, colon.item, body.tree),
        end: body.end,
        depth: body.depth,
    })
}

/// A group of a `switch` (JLS 14.11).
#[cycle(stmt)]
#[tactic(auto, unfolding(crate::specs::StmtReads::group))]
fn group(alloc: Global, t: &[Tok], at: usize, room: u32) -> Result<Found<Group>, ParseErr>
    ensures gives { GivesTree group_shown group_depth room t.now at result
        (group (parsers room) (stmt_parsers room) (drop at t.now)) }
    ensures forth { IfOk result (λ x. at < x.end) }
{
    if is_at(t, at, Want::Key(CASE)) {
        return case_group(alloc, t, at, room);
    }
    default_group(alloc, t, at, room)
}

/// The groups of a `switch`, as many as stand there (JLS 14.11).
#[cycle(stmt)]
fn groups(alloc: Global, t: &[Tok], at: usize, room: u32) -> Result<Found<List<Group>>, Memory>
    requires { at ≤ length t.now }
    ensures { IfOk result (IsFound groups_found groups_found_depth room t.now at
        (many (group (parsers room) (stmt_parsers room)) (drop at t.now))) }
{
    let mut list = Found {
        tree: List::new(alloc),
        end: at,
        depth: 0,
    };
    'items: while let Some(next) = attempt(group(alloc, t, list.end, room))? {
        list = grown(list, next)?;
    }
    Ok(list)
}

/// `switch (..) {..}` (JLS 14.11).
#[cycle(stmt)]
#[tactic(auto, unfolding(crate::specs::StmtReads::switch_stmt, rf_jexpr::specs::Reads::and_then))]
pub(crate) fn switch_stmt(
    alloc: Global,
    t: &[Tok],
    at: usize,
    room: u32,
) -> Result<Found<Box<Stmt>>, ParseErr>
    ensures { GivesForm t.now at room result switch_stmt }
{
    let on = head_at(alloc, t, at, room, SWITCH)?;
    let brace = take(alloc, t, on.end, Want::Op(LEFT_BRACE))?;
    let list = groups(alloc, t, brace.end, room)?;
    let end = take(alloc, t, list.end, Want::Op(RIGHT_BRACE))?;
    let tree = switch_of(alloc, on.tree, brace.item, list.tree, end.item)?;
    Ok(Found {
        tree,
        end: end.end,
        depth: deeper(on.depth, list.depth) + 1,
    })
}
