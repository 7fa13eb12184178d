//! Expressions as texts. Each node has `«` before it and `»` behind it, but for literals, `this` and names; so do items in
//! braces that are items themselves.

use crate::tree_text::TreeText;
use rf_jtree::{Args, Braces, Expr, Init, Many, Tok};
use rf_text::{Bytes, List, Memory};
use std::alloc::Global;

/// An expression as a text.
pub(crate) fn told(alloc: Global, expr: &Expr) -> Result<Bytes, Memory> {
    let mut text = TreeText::new(alloc);
    tell(&mut text, expr);
    text.into_bytes()
}

#[cycle(tell)]
fn tell(text: &mut TreeText, expr: &Expr) {
    match expr {
        Expr::Lit(tok) => text.tok(tok),
        Expr::This(tok) => text.tok(tok),
        Expr::Name(name) => text.name(name),
        _ => {
            text.open();
            tell_bare(text, expr);
            text.close();
        }
    }
}

/// An expression without `«` and `»` of its own.
#[cycle(tell)]
pub(crate) fn tell_bare(text: &mut TreeText, expr: &Expr) {
    match expr {
        Expr::Lit(tok) => text.tok(tok),
        Expr::This(tok) => text.tok(tok),
        Expr::Name(name) => text.name(name),
        Expr::Assign(left, op, right) | Expr::Binary(left, op, right) => {
            tell(text, left);
            text.tok(op);
            tell(text, right)
        }
        Expr::Cond(test, mark, first, colon, other) => {
            tell(text, test);
            text.tok(mark);
            tell(text, first);
            text.tok(colon);
            tell(text, other)
        }
        Expr::Instance(operand, word, used_type) => {
            tell(text, operand);
            text.tok(word);
            text.type_use(used_type);
        }
        Expr::Unary(op, operand) => {
            text.tok(op);
            tell(text, operand)
        }
        Expr::Cast(left, used_type, right, operand) => {
            text.tok(left);
            text.type_use(used_type);
            text.tok(right);
            tell(text, operand)
        }
        Expr::Postfix(operand, op) => {
            tell(text, operand);
            text.tok(op);
        }
        _ => tell_primary(text, expr),
    }
}

#[cycle(tell)]
fn tell_primary(text: &mut TreeText, expr: &Expr) {
    match expr {
        Expr::Paren(left, operand, right) => {
            text.tok(left);
            tell(text, operand);
            text.tok(right);
        }
        Expr::Call { on, id, args } => {
            tell_on(text, on);
            text.tok(id);
            tell_args(text, args);
        }
        Expr::Field(operand, dot, id) => {
            tell(text, operand);
            text.tok(dot);
            text.tok(id);
        }
        Expr::Super {
            word,
            dot,
            id,
            args,
        } => {
            text.tok(word);
            text.tok(dot);
            text.tok(id);
            match args {
                Some(args) => tell_args(text, args),
                None => (),
            }
        }
        Expr::Index(operand, left, index, right) => {
            tell(text, operand);
            text.tok(left);
            tell(text, index);
            text.tok(right);
        }
        _ => tell_new(text, expr),
    }
}

#[cycle(tell)]
fn tell_new(text: &mut TreeText, expr: &Expr) {
    match expr {
        Expr::New(word, name, args) => {
            text.tok(word);
            text.name(name);
            tell_args(text, args);
        }
        Expr::NewArray {
            word,
            base,
            sizes,
            dims,
        } => {
            text.tok(word);
            text.base(base);
            tell_sizes(text, sizes);
            text.dims(dims);
        }
        Expr::NewInit {
            word,
            base,
            dims,
            init,
        } => {
            text.tok(word);
            text.base(base);
            text.dims(dims);
            tell_braces(text, init);
        }
        _ => (),
    }
}

#[cycle(tell)]
fn tell_on(text: &mut TreeText, on: &Option<Box<(Box<Expr>, Tok)>>) {
    match on {
        Some(on) => {
            tell(text, &on.0);
            text.tok(&on.1);
        }
        None => (),
    }
}

#[cycle(tell)]
pub(crate) fn tell_args(text: &mut TreeText, args: &Args) {
    text.tok(&args.left);
    match &args.list {
        Some(list) => tell_exprs(text, list),
        None => (),
    }
    text.tok(&args.right);
}

#[cycle(tell)]
fn tell_exprs(text: &mut TreeText, exprs: &Many<Expr>) {
    tell(text, &exprs.first);
    for (comma, expr) in exprs.rest.as_slice() {
        text.tok(comma);
        tell(text, expr);
    }
}

#[cycle(tell)]
fn tell_sizes(text: &mut TreeText, sizes: &List<(Tok, Expr, Tok)>) {
    for (left, size, right) in sizes.as_slice() {
        text.tok(left);
        tell(text, size);
        text.tok(right);
    }
}

#[cycle(tell)]
fn tell_init(text: &mut TreeText, init: &Init) {
    match init {
        Init::Expression(operand) => tell(text, operand),
        Init::Braced(braces) => {
            text.open();
            tell_braces(text, braces);
            text.close();
        }
    }
}

#[cycle(tell)]
fn tell_inits(text: &mut TreeText, inits: &Many<Init>) {
    tell_init(text, &inits.first);
    for (comma, init) in inits.rest.as_slice() {
        text.tok(comma);
        tell_init(text, init);
    }
}

#[cycle(tell)]
fn tell_braces(text: &mut TreeText, braces: &Braces) {
    text.tok(&braces.left);
    match &braces.items {
        Some(items) => tell_inits(text, items),
        None => (),
    }
    match &braces.comma {
        Some(comma) => text.tok(comma),
        None => (),
    }
    text.tok(&braces.right);
}

/// What a variable begins with, without `«` and `»` of its own.
pub(crate) fn tell_beginning(text: &mut TreeText, init: &Init) {
    match init {
        Init::Expression(operand) => tell_bare(text, operand),
        Init::Braced(braces) => tell_braces(text, braces),
    }
}
