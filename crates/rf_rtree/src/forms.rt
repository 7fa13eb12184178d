use crate::{Ask, RVar, Word};
use rf_text::{Boxed, List};

/// How two terms are compared: `=`, `!=`, `<=`.
#[derive(Clone, Copy, Debug, PartialEq, Eq)]
pub enum Comp {
    Equal,
    Unequal,
    AtMost,
}

/// A term of a comparison.
#[derive(Drop)]
pub enum RTerm {
    /// `elem.prop`.
    Prop { elem: Word, prop: Word },
    /// `old(elem.prop)`, with the line of `old`.
    Old { line: u32, elem: Word, prop: Word },
    /// A variable.
    Var(Word),
    /// One of the four access words.
    Access(Word),
    /// A text, without its quotes.
    Text(Word),
}

/// Variables, the queries that they meet, and what is said of them.
#[cycle(form)]
#[derive(Drop)]
pub struct Quant {
    pub vars: List<RVar>,
    pub asks: List<Ask>,
    pub body: Boxed<RForm>,
}

/// A formula. Parentheses leave no node.
#[cycle(form)]
#[derive(Drop)]
pub enum RForm {
    Implies(Boxed<RForm>, Boxed<RForm>),
    Or(Boxed<RForm>, Boxed<RForm>),
    And(Boxed<RForm>, Boxed<RForm>),
    Not(Boxed<RForm>),
    /// `all ..`.
    Every(Quant),
    /// `some ..`.
    Exists(Quant),
    /// `true` or `false`.
    Truth(bool),
    /// A derived predicate, or `slot`.
    Pred(Ask),
    Cmp(RTerm, Comp, RTerm),
}
