use crate::{Dims, Expr, Init, Many, Mod, Name, Tok, TypeUse};
use rf_text::List;

/// A variable: its name, brackets, and what it begins with (JLS 8.3, 14.4).
#[derive(Drop)]
pub struct Var {
    pub id: Tok,
    pub dims: Dims,
    pub init: Option<(Tok, Init)>,
}

/// A local declaration, without its `;` (JLS 14.4).
#[derive(Drop)]
pub struct Local {
    pub mods: List<Mod>,
    pub used_type: TypeUse,
    pub vars: Many<Var>,
}

/// Statements in braces (JLS 14.2).
#[cycle(stmt)]
#[derive(Drop)]
pub struct Block {
    pub left: Tok,
    pub list: List<Stmt>,
    pub right: Tok,
}

/// What a basic `for` begins with: a local declaration, or expressions (JLS 14.14.1).
#[derive(Drop)]
pub enum ForFirst {
    Local(Local),
    Exprs(Option<Many<Expr>>),
}

/// A keyword with an expression in parentheses behind it, as `if`, `while`, `switch` and `synchronized` have it.
#[derive(Drop)]
pub struct Head {
    pub word: Tok,
    pub left: Tok,
    pub expression: Box<Expr>,
    pub right: Tok,
}

/// A basic `for` up to its body (JLS 14.14.1).
#[derive(Drop)]
pub struct ForHead {
    pub word: Tok,
    pub left: Tok,
    pub first: ForFirst,
    pub semi1: Tok,
    pub test: Option<Box<Expr>>,
    pub semi2: Tok,
    pub last: Option<Many<Expr>>,
    pub right: Tok,
}

/// A `for` over what an expression gives, up to its body (JLS 14.14.2).
#[derive(Drop)]
pub struct EachHead {
    pub word: Tok,
    pub left: Tok,
    pub mods: List<Mod>,
    pub used_type: TypeUse,
    pub id: Tok,
    pub colon: Tok,
    pub over: Box<Expr>,
    pub right: Tok,
}

/// `case value:` or `default:` with the statements up to the next one (JLS 14.11).
#[cycle(stmt)]
#[derive(Drop)]
pub struct Group {
    pub word: Tok,
    pub expression: Option<Box<Expr>>,
    pub colon: Tok,
    pub body: List<Stmt>,
}

/// A catch clause (JLS 14.20).
#[cycle(stmt)]
#[derive(Drop)]
pub struct Catch {
    pub word: Tok,
    pub left: Tok,
    /// `final`.
    pub fixed: Option<Tok>,
    pub name: Name,
    pub id: Tok,
    pub right: Tok,
    pub body: Block,
}

/// A statement (JLS 14). What is large stands behind a pointer, since lists hold statements themselves.
#[cycle(stmt)]
#[derive(Drop)]
pub enum Stmt {
    Block(Block),
    Empty(Tok),
    Local(Box<Local>, Tok),
    Label(Tok, Tok, Box<Stmt>),
    Expression(Box<Expr>, Tok),
    If {
        head: Box<Head>,
        then: Box<Stmt>,
        other: Option<(Tok, Box<Stmt>)>,
    },
    While {
        head: Box<Head>,
        body: Box<Stmt>,
    },
    Do {
        word: Tok,
        body: Box<Stmt>,
        until: Box<Head>,
        semi: Tok,
    },
    For {
        head: Box<ForHead>,
        body: Box<Stmt>,
    },
    Each {
        head: Box<EachHead>,
        body: Box<Stmt>,
    },
    Switch {
        head: Box<Head>,
        brace: Tok,
        groups: List<Group>,
        end: Tok,
    },
    /// `break` or `continue`, with a label or without.
    Jump(Tok, Option<Tok>, Tok),
    Return(Tok, Option<Box<Expr>>, Tok),
    Throw(Tok, Box<Expr>, Tok),
    Sync {
        head: Box<Head>,
        body: Box<Block>,
    },
    Assert(Tok, Box<Expr>, Option<(Tok, Box<Expr>)>, Tok),
    Try {
        word: Tok,
        body: Box<Block>,
        catches: List<Catch>,
        last: Option<(Tok, Box<Block>)>,
    },
}
