ghost use Rattle.std.specs.Prelude.{◌↔◌, ◌⊎◌, IsTrue, IfSome};
ghost use Rattle.rf_jtree.specs.ExprShown.{expr_shown, exprs_shown};
ghost use Rattle.rf_jtree.specs.Kinds.{IsKey, IsIdent};
ghost use Rattle.rf_jtree.specs.NameShown.{mods_shown};
ghost use Rattle.rf_jtree.specs.StmtFits.{IsHead, IsLabel, IsExpressionStmt, IsIf, IsWhile, IsDo, IsFor, IsEach, IsSwitch, IsGroupWord, IsJump, IsExit, IsCatch, IsTry};
ghost use Rattle.rf_jtree.specs.StmtShown.{optional_expr_shown, stmt_shown, other_shown, catches_shown, last_shown};

use crate::name_checks::{are_braces, are_parens};
use crate::variable_checks::variable_mods_fit;
use rf_jfit::{
    are_statement_exprs, has_catch_or_last, is_ident, is_key, is_nearest_if, is_no_local, is_op,
    is_statement_expr,
};
use rf_jtree::keyword_names::{
    BREAK, CASE, CATCH, CONTINUE, DEFAULT, DO, FINAL, FOR, IF, SWITCH, TRY, WHILE,
};
use rf_jtree::operator_names::{COLON, SEMICOLON};
use rf_jtree::{Block, Catch, EachHead, Expr, ForHead, Head, Kw, Stmt, Tok};

pub(crate) fn is_head(key: Kw, word: &Tok, left: &Tok, right: &Tok) -> bool
    ensures { IsTrue result ↔ IsHead key word.now left.now right.now }
{
    is_key(word, key) && are_parens(left, right)
}

pub(crate) fn is_label(id: &Tok, colon: &Tok, body: &Stmt) -> bool
    ensures { IsTrue result ↔ IsLabel id.now colon.now (stmt_shown body.now) }
{
    is_ident(id) && is_op(colon, COLON) && is_no_local(body)
}

pub(crate) fn is_expression_stmt(expression: &Expr, semi: &Tok) -> bool
    ensures { IsTrue result ↔ IsExpressionStmt (expr_shown expression.now) semi.now }
{
    is_statement_expr(expression) && is_op(semi, SEMICOLON)
}

pub(crate) fn is_if(head: &Head, then: &Stmt, other: &Option<(Tok, Box<Stmt>)>) -> bool
    ensures { IsTrue result ↔ IsIf head.now.word head.now.left head.now.right (stmt_shown then.now)
        (other_shown other.now) }
{
    is_head(IF, &head.word, &head.left, &head.right)
        && is_nearest_if(then, other)
        && is_no_local(then)
}

pub(crate) fn is_while(head: &Head, body: &Stmt) -> bool
    ensures { IsTrue result ↔ IsWhile head.now.word head.now.left head.now.right
        (stmt_shown body.now) }
{
    is_head(WHILE, &head.word, &head.left, &head.right) && is_no_local(body)
}

pub(crate) fn is_do(word: &Tok, body: &Stmt, until: &Head, semi: &Tok) -> bool
    ensures { IsTrue result ↔ IsDo word.now (stmt_shown body.now) until.now.word until.now.left
        until.now.right semi.now }
{
    is_key(word, DO)
        && is_no_local(body)
        && is_head(WHILE, &until.word, &until.left, &until.right)
        && is_op(semi, SEMICOLON)
}

pub(crate) fn is_for(head: &ForHead, body: &Stmt) -> bool
    ensures { IsTrue result ↔ IsFor head.now.word head.now.left head.now.semi1 head.now.semi2
        (exprs_shown head.now.last) head.now.right (stmt_shown body.now) }
{
    is_head(FOR, &head.word, &head.left, &head.right)
        && is_op(&head.semi1, SEMICOLON)
        && is_op(&head.semi2, SEMICOLON)
        && are_statement_exprs(&head.last)
        && is_no_local(body)
}

pub(crate) fn is_each(head: &EachHead, body: &Stmt) -> bool
    ensures { IsTrue result ↔ IsEach head.now.word head.now.left (mods_shown head.now.mods)
        head.now.id head.now.colon head.now.right (stmt_shown body.now) }
{
    is_head(FOR, &head.word, &head.left, &head.right)
        && variable_mods_fit(&head.mods)
        && is_ident(&head.id)
        && is_op(&head.colon, COLON)
        && is_no_local(body)
}

pub(crate) fn is_switch(head: &Head, brace: &Tok, end: &Tok) -> bool
    ensures { IsTrue result ↔ IsSwitch head.now.word head.now.left head.now.right brace.now
        end.now }
{
    is_head(SWITCH, &head.word, &head.left, &head.right) && are_braces(brace, end)
}

pub(crate) fn is_group_word(word: &Tok, expression: &Option<Box<Expr>>) -> bool
    ensures { IsTrue result ↔ IsGroupWord word.now (optional_expr_shown expression.now) }
{
    match expression {
        None => is_key(word, DEFAULT),
        Some(_) => is_key(word, CASE),
    }
}

fn is_jump_word(word: &Tok) -> bool
    ensures { IsTrue result ↔ ((IsKey BREAK word.now) ⊎ (IsKey CONTINUE word.now)) }
{
    is_key(word, BREAK) || is_key(word, CONTINUE)
}

fn is_ident_or_none(tok: &Option<Tok>) -> bool
    ensures { IsTrue result ↔ IfSome tok.now IsIdent }
{
    match tok {
        None => true,
        Some(tok) => is_ident(tok),
    }
}

pub(crate) fn is_jump(word: &Tok, label: &Option<Tok>, semi: &Tok) -> bool
    ensures { IsTrue result ↔ IsJump word.now label.now semi.now }
{
    is_jump_word(word) && is_ident_or_none(label) && is_op(semi, SEMICOLON)
}

pub(crate) fn is_exit(key: Kw, word: &Tok, semi: &Tok) -> bool
    ensures { IsTrue result ↔ IsExit key word.now semi.now }
{
    is_key(word, key) && is_op(semi, SEMICOLON)
}

pub(crate) fn is_key_or_none(key: Kw, tok: &Option<Tok>) -> bool
    ensures { IsTrue result ↔ IfSome tok.now (IsKey key) }
{
    match tok {
        None => true,
        Some(tok) => is_key(tok, key),
    }
}

pub(crate) fn is_catch(word: &Tok, left: &Tok, fixed: &Option<Tok>, id: &Tok, right: &Tok) -> bool
    ensures { IsTrue result ↔ IsCatch word.now left.now fixed.now id.now right.now }
{
    is_head(CATCH, word, left, right) && is_key_or_none(FINAL, fixed) && is_ident(id)
}

pub(crate) fn is_try(word: &Tok, catches: &[Catch], last: &Option<(Tok, Box<Block>)>) -> bool
    ensures { IsTrue result ↔ IsTry word.now (catches_shown catches.now) (last_shown last.now) }
{
    is_key(word, TRY) && has_catch_or_last(catches, last)
}
