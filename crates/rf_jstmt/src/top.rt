ghost use Rattle.std.specs.Prelude.{drop};
ghost use Rattle.rf_jtree.specs.StmtTrees.{stmt_depth};
ghost use Rattle.rf_jexpr.specs.Gives.{GivesTree};
ghost use Rattle.rf_jmake.specs.StmtMade.{boxed_stmt_shown};
ghost use Rattle.rf_jstmt.specs.StmtReads.{stmt_parsers, by_word, stmt};
ghost use Rattle.rf_jstmt.specs.StmtGives.{GivesForm};

use crate::blocks::block_alone;
use crate::branches::{if_stmt, labeled, switch_stmt};
use crate::heads::begins_expr_at;
use crate::locals::{begins_label_at, begins_local};
use crate::loops::{do_stmt, for_stmt, while_stmt};
use crate::simple::{
    assert_stmt, empty, expression_stmt, jump, local_stmt, return_stmt, throw_stmt,
};
use crate::tries::{sync_stmt, try_stmt};
use rf_jexpr::{Found, ParseErr, Want, is_at};
use rf_jtree::keyword_names::{
    ASSERT, DO, FOR, IF, RETURN, SWITCH, SYNCHRONIZED, THROW, TRY, WHILE,
};
use rf_jtree::operator_names::{LEFT_BRACE, SEMICOLON};
use rf_jtree::{Stmt, Tok};
use std::alloc::Global;

/// A statement that begins with a keyword, `{` or `;`, with this room left for its parts.
#[cycle(stmt)]
#[tactic(auto, unfolding(crate::specs::StmtReads::by_word))]
fn by_word(alloc: Global, t: &[Tok], at: usize, room: u32) -> Result<Found<Box<Stmt>>, ParseErr>
    ensures { GivesForm t.now at room result by_word }
{
    if is_at(t, at, Want::Op(LEFT_BRACE)) {
        return block_alone(alloc, t, at, room);
    }
    if is_at(t, at, Want::Op(SEMICOLON)) {
        return empty(alloc, t, at, room);
    }
    if is_at(t, at, Want::Key(IF)) {
        return if_stmt(alloc, t, at, room);
    }
    if is_at(t, at, Want::Key(WHILE)) {
        return while_stmt(alloc, t, at, room);
    }
    if is_at(t, at, Want::Key(DO)) {
        return do_stmt(alloc, t, at, room);
    }
    if is_at(t, at, Want::Key(FOR)) {
        return for_stmt(alloc, t, at, room);
    }
    if is_at(t, at, Want::Key(SWITCH)) {
        return switch_stmt(alloc, t, at, room);
    }
    if is_at(t, at, Want::Key(RETURN)) {
        return return_stmt(alloc, t, at, room);
    }
    if is_at(t, at, Want::Key(THROW)) {
        return throw_stmt(alloc, t, at, room);
    }
    if is_at(t, at, Want::Key(SYNCHRONIZED)) {
        return sync_stmt(alloc, t, at, room);
    }
    if is_at(t, at, Want::Key(ASSERT)) {
        return assert_stmt(alloc, t, at, room);
    }
    if is_at(t, at, Want::Key(TRY)) {
        return try_stmt(alloc, t, at, room);
    }
    jump(alloc, t, at, room)
}

/// A statement that is no local declaration, with this room left for its parts.
#[cycle(stmt)]
#[tactic(auto, unfolding(crate::specs::StmtReads::stmt))]
fn any_stmt(alloc: Global, t: &[Tok], at: usize, room: u32) -> Result<Found<Box<Stmt>>, ParseErr>
    ensures { GivesForm t.now at room result stmt }
{
    if !begins_expr_at(t, at) {
        return by_word(alloc, t, at, room);
    }
    if begins_label_at(t, at) {
        return labeled(alloc, t, at, room);
    }
    expression_stmt(alloc, t, at, room)
}

/// A statement that is no local declaration, no deeper than the room (JLS 14.5).
#[cycle(stmt)]
pub(crate) fn stmt(
    alloc: Global,
    t: &[Tok],
    at: usize,
    room: u32,
) -> Result<Found<Box<Stmt>>, ParseErr>
    ensures { GivesTree boxed_stmt_shown stmt_depth room t.now at result
        ((stmt_parsers room).stmt (drop at t.now)) }
{
    if room == 0 {
        return Err(ParseErr::NoTree);
    }
    any_stmt(alloc, t, at, room - 1)
}

/// A statement that may stand among others, no deeper than the room (JLS 14.2).
#[cycle(stmt)]
pub(crate) fn block_stmt(
    alloc: Global,
    t: &[Tok],
    at: usize,
    room: u32,
) -> Result<Found<Box<Stmt>>, ParseErr>
    ensures { GivesTree boxed_stmt_shown stmt_depth room t.now at result
        ((stmt_parsers room).block_stmt (drop at t.now)) }
{
    if room == 0 {
        return Err(ParseErr::NoTree);
    }
    if begins_local(t, at) {
        return local_stmt(alloc, t, at, room - 1);
    }
    any_stmt(alloc, t, at, room - 1)
}
