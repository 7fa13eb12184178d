#![tactic(auto, using(rf_jtree::proofs::StmtShows::stmt_shows))]

ghost use Rattle.std.specs.Prelude.{◌↔◌, IsTrue, IfSome, option_map};
ghost use Rattle.rf_jtree.specs.ExprFits.{ExprFits};
ghost use Rattle.rf_jtree.specs.StmtFits.{MessageFits, StmtFits, BlockFits, StmtsFit, OtherFits, GroupFits, GroupsFit, CatchFits, CatchesFit, LastFits};
ghost use Rattle.rf_jtree.specs.StmtShown.{optional_expr_shown, message_shown, stmt_shown, block_shown, stmts_shown, other_shown, group_shown, groups_shown, catch_shown, catches_shown, last_shown};

use crate::expr_checks::{expr_fits, exprs_fit};
use crate::name_checks::{are_braces, name_fits, type_fits};
use crate::stmt_form_checks::{
    is_catch, is_do, is_each, is_exit, is_expression_stmt, is_for, is_group_word, is_head, is_if,
    is_jump, is_label, is_switch, is_try, is_while,
};
use crate::variable_checks::{first_fits, local_fits};
use rf_jfit::{is_key, is_no_local, is_op};
use rf_jtree::keyword_names::{ASSERT, ELSE, FINALLY, RETURN, SYNCHRONIZED, THROW};
use rf_jtree::operator_names::{COLON, SEMICOLON};
use rf_jtree::{Block, Catch, Expr, Group, Stmt, Tok};

fn expr_fits_or_none(expr: &Option<Box<Expr>>) -> bool
    ensures { IsTrue result ↔ IfSome (optional_expr_shown expr.now) ExprFits }
{
    match expr {
        None => true,
        Some(expr) => expr_fits(expr),
    }
}

fn message_fits_or_none(message: &Option<(Tok, Box<Expr>)>) -> bool
    ensures { IsTrue result ↔ IfSome (option_map message_shown message.now) MessageFits }
{
    match message {
        None => true,
        Some(part) => is_op(&part.0, COLON) && expr_fits(&part.1),
    }
}

/// Whether a statement fits, or a local declaration among statements. It goes as deep as the statement.
#[cycle(stmt)]
pub fn stmt_fits(stmt: &Stmt) -> bool
    ensures { IsTrue result ↔ StmtFits (stmt_shown stmt.now) }
{
    match stmt {
        Stmt::Block(block) => block_fits(block),
        Stmt::Empty(semi) => is_op(semi, SEMICOLON),
        Stmt::Local(local, semi) => local_fits(local) && is_op(semi, SEMICOLON),
        Stmt::Label(id, colon, body) => is_label(id, colon, body) && stmt_fits(body),
        Stmt::Expression(expression, semi) => is_expression_stmt(expression, semi)
            && expr_fits(expression),
        Stmt::If { head, then, other } => {
            is_if(head, then, other)
                && expr_fits(&head.expression)
                && stmt_fits(then)
                && other_fits(other)
        }
        Stmt::While { head, body } => {
            is_while(head, body) && expr_fits(&head.expression) && stmt_fits(body)
        }
        Stmt::Do {
            word,
            body,
            until,
            semi,
        } => is_do(word, body, until, semi) && stmt_fits(body) && expr_fits(&until.expression),
        Stmt::For { head, body } => {
            is_for(head, body)
                && first_fits(&head.first)
                && expr_fits_or_none(&head.test)
                && exprs_fit(&head.last)
                && stmt_fits(body)
        }
        Stmt::Each { head, body } => {
            is_each(head, body)
                && type_fits(&head.used_type)
                && expr_fits(&head.over)
                && stmt_fits(body)
        }
        Stmt::Switch {
            head,
            brace,
            groups,
            end,
        } => {
            is_switch(head, brace, end)
                && expr_fits(&head.expression)
                && groups_fit(groups.as_slice())
        }
        Stmt::Jump(word, label, semi) => is_jump(word, label, semi),
        Stmt::Return(word, expression, semi) => is_exit(RETURN, word, semi)
            && expr_fits_or_none(expression),
        Stmt::Throw(word, expression, semi) => is_exit(THROW, word, semi) && expr_fits(expression),
        Stmt::Sync { head, body } => {
            is_head(SYNCHRONIZED, &head.word, &head.left, &head.right)
                && expr_fits(&head.expression)
                && block_fits(body)
        }
        Stmt::Assert(word, test, message, semi) => {
            is_exit(ASSERT, word, semi) && expr_fits(test) && message_fits_or_none(message)
        }
        Stmt::Try {
            word,
            body,
            catches,
            last,
        } => {
            is_try(word, catches.as_slice(), last)
                && block_fits(body)
                && catches_fit(catches.as_slice())
                && last_fits(last)
        }
    }
}

/// Whether statements in braces fit.
#[cycle(stmt)]
#[tactic(auto, using(rf_jtree::proofs::StmtShows::block_shown_out))]
pub fn block_fits(block: &Block) -> bool
    ensures { IsTrue result ↔ BlockFits (block_shown block.now) }
{
    are_braces(&block.left, &block.right) && stmts_fit(block.list.as_slice())
}

/// Whether the statements of a list fit.
#[cycle(stmt)]
pub fn stmts_fit(stmts: &[Stmt]) -> bool
    ensures { IsTrue result ↔ StmtsFit (stmts_shown stmts.now) }
{
    match stmts {
        [] => true,
        [stmt, more @ ..] => stmt_fits(stmt) && stmts_fit(more),
    }
}

#[cycle(stmt)]
fn other_fits(other: &Option<(Tok, Box<Stmt>)>) -> bool
    ensures { IsTrue result ↔ OtherFits (other_shown other.now) }
{
    match other {
        None => true,
        Some((word, stmt)) => is_key(word, ELSE) && is_no_local(stmt) && stmt_fits(stmt),
    }
}

#[cycle(stmt)]
#[tactic(auto, using(rf_jtree::proofs::StmtShows::group_shown_out))]
fn group_fits(group: &Group) -> bool
    ensures { IsTrue result ↔ GroupFits (group_shown group.now) }
{
    is_group_word(&group.word, &group.expression)
        && expr_fits_or_none(&group.expression)
        && is_op(&group.colon, COLON)
        && stmts_fit(group.body.as_slice())
}

#[cycle(stmt)]
fn groups_fit(groups: &[Group]) -> bool
    ensures { IsTrue result ↔ GroupsFit (groups_shown groups.now) }
{
    match groups {
        [] => true,
        [group, more @ ..] => group_fits(group) && groups_fit(more),
    }
}

#[cycle(stmt)]
#[tactic(auto, using(rf_jtree::proofs::StmtShows::catch_shown_out))]
fn catch_fits(part: &Catch) -> bool
    ensures { IsTrue result ↔ CatchFits (catch_shown part.now) }
{
    is_catch(&part.word, &part.left, &part.fixed, &part.id, &part.right)
        && name_fits(&part.name)
        && block_fits(&part.body)
}

#[cycle(stmt)]
fn catches_fit(catches: &[Catch]) -> bool
    ensures { IsTrue result ↔ CatchesFit (catches_shown catches.now) }
{
    match catches {
        [] => true,
        [first, more @ ..] => catch_fits(first) && catches_fit(more),
    }
}

#[cycle(stmt)]
fn last_fits(last: &Option<(Tok, Box<Block>)>) -> bool
    ensures { IsTrue result ↔ LastFits (last_shown last.now) }
{
    match last {
        None => true,
        Some((word, body)) => is_key(word, FINALLY) && block_fits(body),
    }
}
