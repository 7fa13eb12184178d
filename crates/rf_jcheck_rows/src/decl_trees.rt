//! Members, types and files made by hand.

use crate::trees::Trees;
use rf_jtree::{
    Body, Import, Init, Member, Mod, Param, Params, Ret, Tok, TypeDecl, TypeUse, Unit, Var,
};
use rf_text::List;
use std::process::Abort;

impl<'a, R: Abort + AllocGlobal> Trees<'a, R> {
    /// `int a`, or `int a = 1`.
    pub(crate) fn var(&self, init: Option<(Tok, Init)>) -> Var {
        Var {
            id: self.tok("a"),
            dims: self.no_dims(),
            init,
        }
    }

    pub(crate) fn begins(&self) -> Option<(Tok, Init)> {
        Some((self.tok("="), Init::Expression(self.lit())))
    }

    pub(crate) fn int(&self) -> TypeUse {
        self.prim(self.no_dims())
    }

    pub(crate) fn member_field(&self, mods: List<Mod>, init: Option<(Tok, Init)>) -> Box<Member> {
        self.boxed(Member::Field {
            mods,
            used_type: self.int(),
            vars: self.only(self.var(init)),
            semi: self.tok(";"),
        })
    }

    pub(crate) fn no_params(&self) -> Params {
        Params {
            left: self.tok("("),
            list: None,
            right: self.tok(")"),
        }
    }

    /// One parameter with these modifiers.
    pub(crate) fn params(&self, mods: List<Mod>) -> Params {
        let param = Param {
            mods,
            used_type: self.int(),
            id: self.tok("b"),
            dims: self.no_dims(),
        };
        Params {
            left: self.tok("("),
            list: Some(self.only(param)),
            right: self.tok(")"),
        }
    }

    pub(crate) fn method(&self, mods: List<Mod>, params: Params, body: Body) -> Box<Member> {
        self.boxed(Member::Method {
            mods,
            result: Ret::Void(self.tok("void")),
            id: self.tok("m"),
            params,
            throws: None,
            body,
        })
    }

    pub(crate) fn semi(&self) -> Body {
        Body::Semi(self.tok(";"))
    }

    pub(crate) fn braces(&self) -> Body {
        Body::Block(self.block())
    }

    pub(crate) fn ctor(&self, mods: List<Mod>) -> Box<Member> {
        self.boxed(Member::Ctor {
            mods,
            id: self.tok("C"),
            params: self.no_params(),
            throws: None,
            left: self.tok("{"),
            call: None,
            body: self.none(),
            right: self.tok("}"),
        })
    }

    /// `static {}`
    pub(crate) fn initializer(&self) -> Box<Member> {
        self.boxed(Member::Init {
            word: Some(self.tok("static")),
            body: self.block(),
        })
    }

    pub(crate) fn stray(&self) -> Box<Member> {
        self.boxed(Member::Semi(self.tok(";")))
    }

    /// A class or an interface with one member.
    pub(crate) fn decl(&self, word: &str, member: Box<Member>) -> Box<TypeDecl> {
        self.decl_with(self.none(), word, member)
    }

    pub(crate) fn decl_with(
        &self,
        mods: List<Mod>,
        word: &str,
        member: Box<Member>,
    ) -> Box<TypeDecl> {
        self.boxed(TypeDecl {
            mods,
            word: self.tok(word),
            id: self.tok("C"),
            extends: None,
            implements: None,
            left: self.tok("{"),
            members: self.one(Box::into_inner(member)),
            right: self.tok("}"),
        })
    }

    /// A file with one import of one identifier, on demand or not.
    pub(crate) fn unit(&self, star: Option<(Tok, Tok)>) -> Box<Unit> {
        let import = Import {
            word: self.tok("import"),
            name: self.id("p"),
            star,
            semi: self.tok(";"),
        };
        self.boxed(Unit {
            package: None,
            imports: self.one(import),
            decl: Box::into_inner(self.decl("class", self.stray())),
            semis: self.none(),
        })
    }
}
