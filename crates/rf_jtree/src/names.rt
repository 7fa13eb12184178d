use crate::Tok;
use rf_text::List;

/// One item or more, with a token between two of them: `x {"," x}`.
#[derive(Drop)]
pub struct Many<T> {
    pub first: Box<T>,
    pub rest: List<(Tok, T)>,
}

/// An identifier, and others with a dot before each.
#[derive(Drop)]
pub struct Dotted {
    pub first: Tok,
    pub rest: List<(Tok, Tok)>,
}

/// A dotted name (JLS 6.2).
#[derive(Drop)]
pub struct Name {
    pub ids: Dotted,
}

/// Pairs of brackets: `[` and `]`.
#[derive(Drop)]
pub struct Dims {
    pub list: List<(Tok, Tok)>,
}

/// The type without its brackets: a primitive type or a named one (JLS 4.2, 4.3).
#[derive(Drop)]
pub enum TypeBase {
    Prim(Tok),
    Named(Name),
}

/// The use of a type (JLS 4.1).
#[derive(Drop)]
pub struct TypeUse {
    pub base: TypeBase,
    pub dims: Dims,
}

/// The strings of `@SuppressWarnings`: one, or any number in braces (JLS 9.7).
#[derive(Drop)]
pub enum Strs {
    One(Tok),
    Braced {
        left: Tok,
        list: Option<Many<Tok>>,
        right: Tok,
    },
}

/// A modifier: a word, or one of the three annotations (JLS 8.1.1, 8.3.1, 8.4.3, 9.7).
#[derive(Drop)]
pub enum Mod {
    Word(Tok),
    /// `@Override` or `@Deprecated`, with or without parentheses.
    Mark {
        at: Tok,
        id: Tok,
        parens: Option<(Tok, Tok)>,
    },
    /// `@SuppressWarnings`.
    Suppress {
        at: Tok,
        id: Tok,
        left: Tok,
        strs: Strs,
        right: Tok,
    },
}
