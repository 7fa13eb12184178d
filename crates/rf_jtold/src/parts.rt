//! Parts of statements and members as texts: modifiers, variables, and what may be left out. `«` and `»` stand around each
//! variable that begins with something.

use crate::exprs::{tell_bare, tell_beginning};
use crate::tree_text::TreeText;
use rf_jtree::{Expr, ForFirst, Head, Local, Many, Mod, Strs, Tok, Var};
use rf_text::List;

// ---- modifiers and variables

pub(crate) fn tell_strs(text: &mut TreeText, strs: &Strs) {
    match strs {
        Strs::One(tok) => text.tok(tok),
        Strs::Braced { left, list, right } => {
            text.tok(left);
            match list {
                Some(list) => {
                    text.tok(&list.first);
                    for (comma, tok) in list.rest.as_slice() {
                        text.tok(comma);
                        text.tok(tok);
                    }
                }
                None => (),
            }
            text.tok(right);
        }
    }
}

pub(crate) fn tell_annotation(text: &mut TreeText, annotation: &Mod) {
    match annotation {
        Mod::Word(word) => text.tok(word),
        Mod::Mark { at, id, parens } => {
            text.tok(at);
            text.near(id);
            match parens {
                Some((left, right)) => {
                    text.tok(left);
                    text.tok(right);
                }
                None => (),
            }
        }
        Mod::Suppress {
            at,
            id,
            left,
            strs,
            right,
        } => {
            text.tok(at);
            text.near(id);
            text.tok(left);
            tell_strs(text, strs);
            text.tok(right);
        }
    }
}

/// Modifiers; each annotation has `«` before it and `»` behind it.
pub(crate) fn tell_mods(text: &mut TreeText, mods: &List<Mod>) {
    for item in mods.as_slice() {
        match item {
            Mod::Word(word) => text.tok(word),
            _ => {
                text.open();
                tell_annotation(text, item);
                text.close();
            }
        }
    }
}

pub(crate) fn tell_var(text: &mut TreeText, var: &Var) {
    match &var.init {
        Some((equals, init)) => {
            text.open();
            text.tok(&var.id);
            text.dims(&var.dims);
            text.tok(equals);
            tell_beginning(text, init);
            text.close();
        }
        None => {
            text.tok(&var.id);
            text.dims(&var.dims);
        }
    }
}

pub(crate) fn tell_vars(text: &mut TreeText, vars: &Many<Var>) {
    tell_var(text, &vars.first);
    for (comma, var) in vars.rest.as_slice() {
        text.tok(comma);
        tell_var(text, var);
    }
}

pub(crate) fn tell_local(text: &mut TreeText, local: &Local) {
    tell_mods(text, &local.mods);
    text.type_use(&local.used_type);
    tell_vars(text, &local.vars);
}

// ---- parts that may be left out

pub(crate) fn tell_some(text: &mut TreeText, expr: &Option<Box<Expr>>) {
    match expr {
        Some(expr) => tell_bare(text, expr),
        None => (),
    }
}

pub(crate) fn tell_each(text: &mut TreeText, exprs: &Option<Many<Expr>>) {
    match exprs {
        Some(exprs) => {
            tell_bare(text, &exprs.first);
            for (comma, expr) in exprs.rest.as_slice() {
                text.tok(comma);
                tell_bare(text, expr);
            }
        }
        None => (),
    }
}

pub(crate) fn tell_tok(text: &mut TreeText, tok: &Option<Tok>) {
    match tok {
        Some(tok) => text.tok(tok),
        None => (),
    }
}

pub(crate) fn tell_first(text: &mut TreeText, first: &ForFirst) {
    match first {
        ForFirst::Local(local) => tell_local(text, local),
        ForFirst::Exprs(exprs) => tell_each(text, exprs),
    }
}

/// A keyword with an expression in parentheses behind it.
pub(crate) fn tell_head(text: &mut TreeText, head: &Head) {
    text.tok(&head.word);
    text.tok(&head.left);
    tell_bare(text, &head.expression);
    text.tok(&head.right);
}

pub(crate) fn tell_message(text: &mut TreeText, message: &Option<(Tok, Box<Expr>)>) {
    match message {
        Some((colon, expr)) => {
            text.tok(colon);
            tell_bare(text, expr);
        }
        None => (),
    }
}
