//! Statements as texts: `«` and `»` stand around each statement, each group of a `switch` and each catch clause. An expression
//! that is no part of another one has none of its own there.

use crate::exprs::tell_bare;
use crate::parts::{
    tell_each, tell_first, tell_head, tell_local, tell_message, tell_mods, tell_some, tell_tok,
};
use crate::tree_text::TreeText;
use rf_jtree::{Block, Catch, EachHead, ForHead, Group, Stmt, Tok};
use rf_text::{Bytes, List, Memory};
use std::alloc::Global;

/// A statement as a text.
pub(crate) fn stmt_told(alloc: Global, stmt: &Stmt) -> Result<Bytes, Memory> {
    let mut text = TreeText::new(alloc);
    tell_stmt(&mut text, stmt);
    text.into_bytes()
}

#[cycle(tell_stmt)]
fn tell_stmt(text: &mut TreeText, stmt: &Stmt) {
    text.open();
    tell_form(text, stmt);
    text.close();
}

/// A statement without `«` and `»` of its own.
#[cycle(tell_stmt)]
fn tell_form(text: &mut TreeText, stmt: &Stmt) {
    match stmt {
        Stmt::Block(block) => tell_braced(text, block),
        Stmt::Label(id, colon, body) => {
            text.tok(id);
            text.tok(colon);
            tell_stmt(text, body);
        }
        Stmt::If { head, then, other } => {
            tell_head(text, head);
            tell_stmt(text, then);
            tell_other(text, other);
        }
        Stmt::Switch {
            head,
            brace,
            groups,
            end,
        } => {
            tell_head(text, head);
            text.tok(brace);
            tell_groups(text, groups);
            text.tok(end);
        }
        Stmt::Sync { head, body } => {
            tell_head(text, head);
            tell_block(text, body);
        }
        Stmt::Try {
            word,
            body,
            catches,
            last,
        } => {
            text.tok(word);
            tell_block(text, body);
            tell_catches(text, catches);
            tell_last(text, last);
        }
        _ => tell_loop(text, stmt),
    }
}

#[cycle(tell_stmt)]
fn tell_loop(text: &mut TreeText, stmt: &Stmt) {
    match stmt {
        Stmt::While { head, body } => {
            tell_head(text, head);
            tell_stmt(text, body);
        }
        Stmt::Do {
            word,
            body,
            until,
            semi,
        } => {
            text.tok(word);
            tell_stmt(text, body);
            tell_head(text, until);
            text.tok(semi);
        }
        Stmt::For { head, body } => {
            tell_for_head(text, head);
            tell_stmt(text, body);
        }
        Stmt::Each { head, body } => {
            tell_each_head(text, head);
            tell_stmt(text, body);
        }
        _ => tell_simple(text, stmt),
    }
}

/// A basic `for` up to its body.
fn tell_for_head(text: &mut TreeText, head: &ForHead) {
    text.tok(&head.word);
    text.tok(&head.left);
    tell_first(text, &head.first);
    text.tok(&head.semi1);
    tell_some(text, &head.test);
    text.tok(&head.semi2);
    tell_each(text, &head.last);
    text.tok(&head.right);
}

/// A `for` over what an expression gives, up to its body.
fn tell_each_head(text: &mut TreeText, head: &EachHead) {
    text.tok(&head.word);
    text.tok(&head.left);
    tell_mods(text, &head.mods);
    text.type_use(&head.used_type);
    text.tok(&head.id);
    text.tok(&head.colon);
    tell_bare(text, &head.over);
    text.tok(&head.right);
}

/// A statement with no statement in it.
fn tell_simple(text: &mut TreeText, stmt: &Stmt) {
    match stmt {
        Stmt::Empty(semi) => text.tok(semi),
        Stmt::Local(local, semi) => {
            tell_local(text, local);
            text.tok(semi);
        }
        Stmt::Expression(expression, semi) => {
            tell_bare(text, expression);
            text.tok(semi);
        }
        Stmt::Jump(word, label, semi) => {
            text.tok(word);
            tell_tok(text, label);
            text.tok(semi);
        }
        Stmt::Return(word, expression, semi) => {
            text.tok(word);
            tell_some(text, expression);
            text.tok(semi);
        }
        Stmt::Throw(word, expression, semi) => {
            text.tok(word);
            tell_bare(text, expression);
            text.tok(semi);
        }
        Stmt::Assert(word, test, message, semi) => {
            text.tok(word);
            tell_bare(text, test);
            tell_message(text, message);
            text.tok(semi);
        }
        _ => (),
    }
}

// ---- what statements are made of

/// Statements in braces, as a statement of their own.
#[cycle(tell_stmt)]
pub(crate) fn tell_block(text: &mut TreeText, block: &Block) {
    text.open();
    tell_braced(text, block);
    text.close();
}

#[cycle(tell_stmt)]
fn tell_braced(text: &mut TreeText, block: &Block) {
    text.tok(&block.left);
    tell_stmts(text, &block.list);
    text.tok(&block.right);
}

#[cycle(tell_stmt)]
pub(crate) fn tell_stmts(text: &mut TreeText, stmts: &List<Stmt>) {
    for stmt in stmts.as_slice() {
        tell_stmt(text, stmt);
    }
}

#[cycle(tell_stmt)]
fn tell_other(text: &mut TreeText, other: &Option<(Tok, Box<Stmt>)>) {
    match other {
        Some((word, stmt)) => {
            text.tok(word);
            tell_stmt(text, stmt);
        }
        None => (),
    }
}

#[cycle(tell_stmt)]
fn tell_group(text: &mut TreeText, group: &Group) {
    text.open();
    text.tok(&group.word);
    tell_some(text, &group.expression);
    text.tok(&group.colon);
    tell_stmts(text, &group.body);
    text.close();
}

#[cycle(tell_stmt)]
fn tell_groups(text: &mut TreeText, groups: &List<Group>) {
    for group in groups.as_slice() {
        tell_group(text, group);
    }
}

#[cycle(tell_stmt)]
fn tell_catch(text: &mut TreeText, catch: &Catch) {
    text.open();
    text.tok(&catch.word);
    text.tok(&catch.left);
    tell_tok(text, &catch.fixed);
    text.name(&catch.name);
    text.tok(&catch.id);
    text.tok(&catch.right);
    tell_block(text, &catch.body);
    text.close();
}

#[cycle(tell_stmt)]
fn tell_catches(text: &mut TreeText, catches: &List<Catch>) {
    for catch in catches.as_slice() {
        tell_catch(text, catch);
    }
}

#[cycle(tell_stmt)]
fn tell_last(text: &mut TreeText, last: &Option<(Tok, Box<Block>)>) {
    match last {
        Some((word, block)) => {
            text.tok(word);
            tell_block(text, block);
        }
        None => (),
    }
}
