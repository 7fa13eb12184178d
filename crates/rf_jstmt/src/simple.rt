ghost use Rattle.std.specs.Prelude.{◌≤◌, drop, length, option_map, IfOk};
ghost use Rattle.rf_jtree.specs.NameTrees.{option_depth};
ghost use Rattle.rf_jtree.specs.declared.operator_names.TheConstants.{COLON};
ghost use Rattle.rf_jexpr.specs.Descent.{parsers};
ghost use Rattle.rf_jexpr.specs.Gives.{Gives, GivesTree, IsFound};
ghost use Rattle.rf_jexpr.specs.Reads.{is_op, token, optional, behind};
ghost use Rattle.rf_jmake.specs.StmtMade.{boxed_message_shown};
ghost use Rattle.rf_jstmt.specs.StmtMade.{message_depth};
ghost use Rattle.rf_jstmt.specs.StmtReads.{empty, expression_stmt, jumps, jump, return_stmt, throw_stmt, assert_stmt, local_stmt};
ghost use Rattle.rf_jstmt.specs.StmtGives.{GivesForm};

use crate::heads::{is_statement, optional_expr};
use crate::locals::local;
use rf_jexpr::{Found, ParseErr, Taken, Want, attempt, boxed_expr, deeper, is_at, take, take_if};
use rf_jmake::simple_stmts::{
    assert_of, empty_of, expression_of, jump_of, local_of, return_of, throw_of,
};
use rf_jtree::keyword_names::{ASSERT, BREAK, CONTINUE, RETURN, THROW};
use rf_jtree::operator_names::{COLON, SEMICOLON};
use rf_jtree::{Expr, Stmt, Tok};
use rf_text::Memory;
use std::alloc::Global;

// Statements that hold no other statement. In each, `room` is what is left for the parts.

/// `;` (JLS 14.6).
#[tactic(auto, unfolding(crate::specs::StmtReads::empty, rf_jexpr::specs::Reads::and_then))]
pub(crate) fn empty(
    alloc: Global,
    t: &[Tok],
    at: usize,
    room: u32,
) -> Result<Found<Box<Stmt>>, ParseErr>
    ensures { GivesForm t.now at room result (λ p s. empty) }
{
    let semi = take(alloc, t, at, Want::Op(SEMICOLON))?;
    let tree = empty_of(alloc, semi.item)?;
    Ok(Found {
        tree,
        end: semi.end,
        depth: 1,
    })
}

/// An expression and `;` (JLS 14.8).
#[tactic(auto, unfolding(crate::specs::StmtReads::expression_stmt, rf_jexpr::specs::Reads::and_then, rf_jexpr::specs::Reads::when))]
pub(crate) fn expression_stmt(
    alloc: Global,
    t: &[Tok],
    at: usize,
    room: u32,
) -> Result<Found<Box<Stmt>>, ParseErr>
    ensures { GivesForm t.now at room result (λ p s. expression_stmt p) }
{
    let found = boxed_expr(alloc, t, at, room)?;
    if !is_statement(&found.tree) {
        return Err(ParseErr::NoTree);
    }
    let semi = take(alloc, t, found.end, Want::Op(SEMICOLON))?;
    let tree = expression_of(alloc, found.tree, semi.item)?;
    Ok(Found {
        tree,
        end: semi.end,
        depth: found.depth + 1,
    })
}

/// `break` or `continue`.
fn jump_word(alloc: Global, t: &[Tok], at: usize) -> Result<Taken<Tok>, ParseErr>
    ensures { Gives (λ tok. tok) t.now at result (token jumps (drop at t.now)) }
{
    if is_at(t, at, Want::Key(BREAK)) {
        return take(alloc, t, at, Want::Key(BREAK));
    }
    take(alloc, t, at, Want::Key(CONTINUE))
}

/// `break` or `continue`, with a label or without (JLS 14.15, 14.16).
#[tactic(auto, unfolding(crate::specs::StmtReads::jump, rf_jexpr::specs::Reads::and_then))]
pub(crate) fn jump(
    alloc: Global,
    t: &[Tok],
    at: usize,
    room: u32,
) -> Result<Found<Box<Stmt>>, ParseErr>
    ensures { GivesForm t.now at room result (λ p s. jump) }
{
    let word = jump_word(alloc, t, at)?;
    let label = take_if(alloc, t, word.end, Want::Ident)?;
    let semi = take(alloc, t, label.end, Want::Op(SEMICOLON))?;
    let tree = jump_of(alloc, word.item, label.item, semi.item)?;
    Ok(Found {
        tree,
        end: semi.end,
        depth: 1,
    })
}

/// `return` (JLS 14.17).
#[tactic(auto, unfolding(crate::specs::StmtReads::return_stmt, rf_jexpr::specs::Reads::and_then))]
pub(crate) fn return_stmt(
    alloc: Global,
    t: &[Tok],
    at: usize,
    room: u32,
) -> Result<Found<Box<Stmt>>, ParseErr>
    ensures { GivesForm t.now at room result (λ p s. return_stmt p) }
{
    let word = take(alloc, t, at, Want::Key(RETURN))?;
    let expression = optional_expr(alloc, t, word.end, room)?;
    let semi = take(alloc, t, expression.end, Want::Op(SEMICOLON))?;
    let tree = return_of(alloc, word.item, expression.tree, semi.item)?;
    Ok(Found {
        tree,
        end: semi.end,
        depth: expression.depth + 1,
    })
}

/// `throw` (JLS 14.18).
#[tactic(auto, unfolding(crate::specs::StmtReads::throw_stmt, rf_jexpr::specs::Reads::and_then))]
pub(crate) fn throw_stmt(
    alloc: Global,
    t: &[Tok],
    at: usize,
    room: u32,
) -> Result<Found<Box<Stmt>>, ParseErr>
    ensures { GivesForm t.now at room result (λ p s. throw_stmt p) }
{
    let word = take(alloc, t, at, Want::Key(THROW))?;
    let expression = boxed_expr(alloc, t, word.end, room)?;
    let semi = take(alloc, t, expression.end, Want::Op(SEMICOLON))?;
    let tree = throw_of(alloc, word.item, expression.tree, semi.item)?;
    Ok(Found {
        tree,
        end: semi.end,
        depth: expression.depth + 1,
    })
}

/// `:` and an expression.
#[tactic(auto, unfolding(rf_jexpr::specs::Reads::behind, rf_jexpr::specs::Reads::and_then))]
fn message(
    alloc: Global,
    t: &[Tok],
    at: usize,
    room: u32,
) -> Result<Found<(Tok, Box<Expr>)>, ParseErr>
    ensures { GivesTree boxed_message_shown message_depth room t.now at result
        (behind (is_op COLON) (parsers room).expr (drop at t.now)) }
{
    let colon = take(alloc, t, at, Want::Op(COLON))?;
    let expression = boxed_expr(alloc, t, colon.end, room)?;
    Ok(Found {
        tree: (colon.item, expression.tree),
        end: expression.end,
        depth: expression.depth,
    })
}

/// The same, if it stands there.
#[tactic(auto, unfolding(rf_jexpr::specs::Reads::optional, rf_jexpr::specs::Reads::and_then, rf_jexpr::specs::Reads::or_else))]
fn some_message(
    alloc: Global,
    t: &[Tok],
    at: usize,
    room: u32,
) -> Result<Found<Option<(Tok, Box<Expr>)>>, Memory>
    requires { at ≤ length t.now }
    ensures { IfOk result (IsFound (option_map boxed_message_shown) (option_depth message_depth)
        room t.now at (optional (behind (is_op COLON) (parsers room).expr) (drop at t.now))) }
{
    match attempt(message(alloc, t, at, room))? {
        Some(found) => Ok(found.there()),
        None => Ok(Found::left_out(at)),
    }
}

/// `assert`, with a second expression or without (JLS 14.10).
#[tactic(auto, unfolding(crate::specs::StmtReads::assert_stmt, rf_jexpr::specs::Reads::and_then))]
pub(crate) fn assert_stmt(
    alloc: Global,
    t: &[Tok],
    at: usize,
    room: u32,
) -> Result<Found<Box<Stmt>>, ParseErr>
    ensures { GivesForm t.now at room result (λ p s. assert_stmt p) }
{
    let word = take(alloc, t, at, Want::Key(ASSERT))?;
    let test = boxed_expr(alloc, t, word.end, room)?;
    let message = some_message(alloc, t, test.end, room)?;
    let semi = take(alloc, t, message.end, Want::Op(SEMICOLON))?;
    let tree = assert_of(alloc, word.item, test.tree, message.tree, semi.item)?;
    Ok(Found {
        tree,
        end: semi.end,
        depth: deeper(test.depth, message.depth) + 1,
    })
}

/// A local declaration and `;` (JLS 14.4).
#[tactic(auto, unfolding(crate::specs::StmtReads::local_stmt, rf_jexpr::specs::Reads::and_then))]
pub(crate) fn local_stmt(
    alloc: Global,
    t: &[Tok],
    at: usize,
    room: u32,
) -> Result<Found<Box<Stmt>>, ParseErr>
    ensures { GivesForm t.now at room result (λ p s. local_stmt p) }
{
    if t.len() < at {
        return Err(ParseErr::NoTree);
    }
    let found = local(alloc, t, at, room)?;
    let semi = take(alloc, t, found.end, Want::Op(SEMICOLON))?;
    let tree = local_of(alloc, found.tree, semi.item)?;
    Ok(Found {
        tree,
        end: semi.end,
        depth: found.depth + 1,
    })
}
