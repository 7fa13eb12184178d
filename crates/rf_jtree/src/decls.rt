use crate::{Args, Block, Dims, Many, Mod, Name, Stmt, Tok, TypeUse, Var};
use rf_text::List;

/// A parameter of a method or a constructor (JLS 8.4.1).
#[derive(Drop)]
pub struct Param {
    pub mods: List<Mod>,
    pub used_type: TypeUse,
    pub id: Tok,
    pub dims: Dims,
}

/// Parameters in parentheses (JLS 8.4.1).
#[derive(Drop)]
pub struct Params {
    pub left: Tok,
    pub list: Option<Many<Param>>,
    pub right: Tok,
}

/// `this(..);` or `super(..);` at the head of a constructor's body (JLS 8.8.7.1).
#[derive(Drop)]
pub struct CtorCall {
    pub word: Tok,
    pub args: Args,
    pub semi: Tok,
}

/// The result of a method (JLS 8.4).
#[derive(Drop)]
pub enum Ret {
    Void(Tok),
    Typed(TypeUse),
}

/// The body of a method, or `;` in its place (JLS 8.4.7).
#[derive(Drop)]
pub enum Body {
    Block(Block),
    Semi(Tok),
}

/// A member of a type, an initializer or a stray `;` (JLS 8.1.6, 9.1.4).
#[derive(Drop)]
pub enum Member {
    Semi(Tok),
    /// An initializer, with `static` or without (JLS 8.6, 8.7).
    Init {
        word: Option<Tok>,
        body: Block,
    },
    Ctor {
        mods: List<Mod>,
        id: Tok,
        params: Params,
        throws: Option<(Tok, Many<Name>)>,
        left: Tok,
        call: Option<CtorCall>,
        body: List<Stmt>,
        right: Tok,
    },
    Method {
        mods: List<Mod>,
        result: Ret,
        id: Tok,
        params: Params,
        throws: Option<(Tok, Many<Name>)>,
        body: Body,
    },
    Field {
        mods: List<Mod>,
        used_type: TypeUse,
        vars: Many<Var>,
        semi: Tok,
    },
}

/// A class or an interface (JLS 8.1, 9.1).
#[derive(Drop)]
pub struct TypeDecl {
    pub mods: List<Mod>,
    /// `class` or `interface`.
    pub word: Tok,
    pub id: Tok,
    pub extends: Option<(Tok, Many<Name>)>,
    pub implements: Option<(Tok, Many<Name>)>,
    pub left: Tok,
    pub members: List<Member>,
    pub right: Tok,
}

/// An import, of one type or on demand: then with `.` and `*` (JLS 7.5).
#[derive(Drop)]
pub struct Import {
    pub word: Tok,
    pub name: Name,
    pub star: Option<(Tok, Tok)>,
    pub semi: Tok,
}

/// A file (JLS 7.3).
#[derive(Drop)]
pub struct Unit {
    pub package: Option<(Tok, Name, Tok)>,
    pub imports: List<Import>,
    pub decl: TypeDecl,
    pub semis: List<Tok>,
}
