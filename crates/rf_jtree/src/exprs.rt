use crate::{Dims, Many, Name, Tok, TypeBase, TypeUse};
use rf_text::List;

/// Arguments in parentheses (JLS 15.12).
#[cycle(expr)]
#[derive(Drop)]
pub struct Args {
    pub left: Tok,
    pub list: Option<Many<Expr>>,
    pub right: Tok,
}

/// What a variable or an array item begins with: an expression, or items in braces (JLS 8.3, 10.6).
#[cycle(expr)]
#[derive(Drop)]
pub enum Init {
    Expression(Box<Expr>),
    Braced(Box<Braces>),
}

/// Items in braces, with a comma behind the last one or without (JLS 10.6).
#[cycle(expr)]
#[derive(Drop)]
pub struct Braces {
    pub left: Tok,
    pub items: Option<Many<Init>>,
    pub comma: Option<Tok>,
    pub right: Tok,
}

/// An expression (JLS 15). Most are names, literals and binary operations; the others have the rest of their parts behind
/// pointers, so that none is larger than a name.
#[cycle(expr)]
#[derive(Drop)]
pub enum Expr {
    /// `left = value`, with any assignment operator (JLS 15.26).
    Assign(Box<Expr>, Tok, Box<Expr>),
    /// `test ? then : other` (JLS 15.25).
    Cond(Box<Expr>, Box<Tok>, Box<Expr>, Box<Tok>, Box<Expr>),
    /// A binary operator (JLS 15.17 to 15.24).
    Binary(Box<Expr>, Tok, Box<Expr>),
    /// `value instanceof T` (JLS 15.20.2).
    Instance(Box<Expr>, Tok, Box<TypeUse>),
    /// A prefix operator (JLS 15.15).
    Unary(Tok, Box<Expr>),
    /// `(T) value` (JLS 15.16).
    Cast(Tok, Box<TypeUse>, Box<Tok>, Box<Expr>),
    /// `value++` or `value--` (JLS 15.14).
    Postfix(Box<Expr>, Tok),
    /// A literal (JLS 15.8.1).
    Lit(Tok),
    /// `this` (JLS 15.8.3).
    This(Tok),
    /// An expression in parentheses (JLS 15.8.5).
    Paren(Tok, Box<Expr>, Box<Tok>),
    /// A dotted name (JLS 6.5).
    Name(Name),
    /// `m(..)` or `on.m(..)` (JLS 15.12).
    Call {
        on: Option<Box<(Box<Expr>, Tok)>>,
        id: Tok,
        args: Box<Args>,
    },
    /// `value.x` where the value is no name (JLS 15.11).
    Field(Box<Expr>, Box<Tok>, Tok),
    /// `super.x` or `super.m(..)` (JLS 15.11.2, 15.12).
    Super {
        word: Box<Tok>,
        dot: Box<Tok>,
        id: Box<Tok>,
        args: Option<Box<Args>>,
    },
    /// `new C(..)` (JLS 15.9).
    New(Tok, Box<Name>, Box<Args>),
    /// `value[index]` (JLS 15.13).
    Index(Box<Expr>, Tok, Box<Expr>, Box<Tok>),
    /// `new T[size]..[]..` (JLS 15.10).
    NewArray {
        word: Box<Tok>,
        base: Box<TypeBase>,
        sizes: List<(Tok, Expr, Tok)>,
        dims: Dims,
    },
    /// `new T[]..{..}` (JLS 15.10).
    NewInit {
        word: Box<Tok>,
        base: Box<TypeBase>,
        dims: Dims,
        init: Box<Braces>,
    },
}
