//! Trees made by hand, for the tests: `t.binary(t.name("a"), "+", t.name("b"))`. No tree is let go: that is proved anew in
//! each crate that does it, form by form, and the tests end soon.

use rf_jtree::{
    Args, Block, Braces, Dims, Dotted, Expr, ForFirst, ForHead, Head, Local, Many, Mod, Name, Stmt,
    Tok, TypeBase, TypeUse, Var,
};
use rf_jwords::token;
use rf_text::List;
use std::process::Abort;

/// Makes trees of words and of the trees of their parts. Want of memory ends the test.
#[derive(Clone, Copy)]
pub(crate) struct Trees<'a, R> {
    pub(crate) rt: &'a R,
}

impl<'a, R: Abort + AllocGlobal> Trees<'a, R> {
    /// A token of this text's kind.
    pub(crate) fn tok(&self, text: &str) -> Tok {
        token(self.rt.alloc(), text.as_bytes()).expect(self.rt, "memory")
    }

    pub(crate) fn boxed<T>(&self, tree: T) -> Box<T> {
        Box::new(self.rt.alloc(), tree).expect(self.rt, "memory")
    }

    pub(crate) fn none<T>(&self) -> List<T> {
        List::new(self.rt.alloc())
    }

    pub(crate) fn one<T>(&self, item: T) -> List<T> {
        let mut items = Vec::new(self.rt.alloc());
        items.push(item).expect(self.rt, "memory");
        List::from_vec(items)
    }

    pub(crate) fn two<T>(&self, first: T, second: T) -> List<T> {
        let mut items = Vec::new(self.rt.alloc());
        items.push(first).expect(self.rt, "memory");
        items.push(second).expect(self.rt, "memory");
        List::from_vec(items)
    }

    pub(crate) fn only<T>(&self, item: T) -> Many<T> {
        Many {
            first: self.boxed(item),
            rest: self.none(),
        }
    }

    /// A name of one identifier.
    pub(crate) fn id(&self, text: &str) -> Name {
        Name {
            ids: Dotted {
                first: self.tok(text),
                rest: self.none(),
            },
        }
    }

    pub(crate) fn no_dims(&self) -> Dims {
        Dims { list: self.none() }
    }

    pub(crate) fn brackets(&self) -> Dims {
        Dims {
            list: self.one((self.tok("["), self.tok("]"))),
        }
    }

    pub(crate) fn prim(&self, dims: Dims) -> TypeUse {
        TypeUse {
            base: TypeBase::Prim(self.tok("int")),
            dims,
        }
    }

    pub(crate) fn named(&self) -> TypeUse {
        TypeUse {
            base: TypeBase::Named(self.id("T")),
            dims: self.no_dims(),
        }
    }

    pub(crate) fn word(&self, word: &str) -> Mod {
        Mod::Word(self.tok(word))
    }

    pub(crate) fn mark(&self, parens: Option<(Tok, Tok)>) -> Mod {
        Mod::Mark {
            at: self.tok("@"),
            id: self.tok("Override"),
            parens,
        }
    }

    pub(crate) fn name(&self, text: &str) -> Box<Expr> {
        self.boxed(Expr::Name(self.id(text)))
    }

    pub(crate) fn lit(&self) -> Box<Expr> {
        self.boxed(Expr::Lit(self.tok("1")))
    }

    pub(crate) fn this(&self) -> Box<Expr> {
        self.boxed(Expr::This(self.tok("this")))
    }

    pub(crate) fn binary(&self, left: Box<Expr>, op: &str, right: Box<Expr>) -> Box<Expr> {
        self.boxed(Expr::Binary(left, self.tok(op), right))
    }

    pub(crate) fn assign(&self, left: Box<Expr>, operand: Box<Expr>) -> Box<Expr> {
        self.boxed(Expr::Assign(left, self.tok("="), operand))
    }

    pub(crate) fn cond(&self, test: Box<Expr>, then: Box<Expr>, other: Box<Expr>) -> Box<Expr> {
        self.boxed(Expr::Cond(
            test,
            self.boxed(self.tok("?")),
            then,
            self.boxed(self.tok(":")),
            other,
        ))
    }

    /// `a + b`
    pub(crate) fn sum(&self) -> Box<Expr> {
        self.binary(self.name("a"), "+", self.name("b"))
    }

    /// `b ? c : d`
    pub(crate) fn choice(&self) -> Box<Expr> {
        self.cond(self.name("b"), self.name("c"), self.name("d"))
    }

    pub(crate) fn unary(&self, op: &str, operand: Box<Expr>) -> Box<Expr> {
        self.boxed(Expr::Unary(self.tok(op), operand))
    }

    pub(crate) fn postfix(&self, operand: Box<Expr>) -> Box<Expr> {
        self.boxed(Expr::Postfix(operand, self.tok("++")))
    }

    pub(crate) fn cast(&self, used_type: TypeUse, operand: Box<Expr>) -> Box<Expr> {
        self.boxed(Expr::Cast(
            self.tok("("),
            self.boxed(used_type),
            self.boxed(self.tok(")")),
            operand,
        ))
    }

    pub(crate) fn paren(&self, operand: Box<Expr>) -> Box<Expr> {
        self.boxed(Expr::Paren(self.tok("("), operand, self.boxed(self.tok(")"))))
    }

    pub(crate) fn args(&self) -> Box<Args> {
        self.boxed(Args {
            left: self.tok("("),
            list: None,
            right: self.tok(")"),
        })
    }

    pub(crate) fn call(&self) -> Box<Expr> {
        self.boxed(Expr::Call {
            on: None,
            id: self.tok("f"),
            args: self.args(),
        })
    }

    pub(crate) fn field(&self, operand: Box<Expr>) -> Box<Expr> {
        self.boxed(Expr::Field(operand, self.boxed(self.tok(".")), self.tok("x")))
    }

    pub(crate) fn index(&self, operand: Box<Expr>) -> Box<Expr> {
        self.boxed(Expr::Index(
            operand,
            self.tok("["),
            self.lit(),
            self.boxed(self.tok("]")),
        ))
    }

    /// `new int[1]`, with these brackets behind it.
    pub(crate) fn new_array(&self, dims: Dims) -> Box<Expr> {
        self.boxed(Expr::NewArray {
            word: self.boxed(self.tok("new")),
            base: self.boxed(TypeBase::Prim(self.tok("int"))),
            sizes: self.one((self.tok("["), Expr::Lit(self.tok("1")), self.tok("]"))),
            dims,
        })
    }

    /// `new int` with these brackets and `{}`.
    pub(crate) fn new_init(&self, dims: Dims) -> Box<Expr> {
        self.boxed(Expr::NewInit {
            word: self.boxed(self.tok("new")),
            base: self.boxed(TypeBase::Prim(self.tok("int"))),
            dims,
            init: self.boxed(Braces {
                left: self.tok("{"),
                items: None,
                comma: None,
                right: self.tok("}"),
            }),
        })
    }

    pub(crate) fn empty(&self) -> Box<Stmt> {
        self.boxed(Stmt::Empty(self.tok(";")))
    }

    pub(crate) fn run(&self, operand: Box<Expr>) -> Box<Stmt> {
        self.boxed(Stmt::Expression(operand, self.tok(";")))
    }

    /// `word (a)`
    fn head(&self, word: &str) -> Box<Head> {
        self.boxed(Head {
            word: self.tok(word),
            left: self.tok("("),
            expression: self.boxed(Expr::Name(self.id("a"))),
            right: self.tok(")"),
        })
    }

    pub(crate) fn if_then(&self, then: Box<Stmt>, other: Option<(Tok, Box<Stmt>)>) -> Box<Stmt> {
        self.boxed(Stmt::If {
            head: self.head("if"),
            then,
            other,
        })
    }

    pub(crate) fn or_else(&self, other: Box<Stmt>) -> Option<(Tok, Box<Stmt>)> {
        Some((self.tok("else"), other))
    }

    /// `if (a) ;`
    pub(crate) fn open_if(&self) -> Box<Stmt> {
        self.if_then(self.empty(), None)
    }

    pub(crate) fn while_do(&self, body: Box<Stmt>) -> Box<Stmt> {
        self.boxed(Stmt::While {
            head: self.head("while"),
            body,
        })
    }

    /// `for (first; a; last) ;`
    pub(crate) fn for_with(&self, first: ForFirst, last: Option<Many<Expr>>) -> Box<Stmt> {
        let head = ForHead {
            word: self.tok("for"),
            left: self.tok("("),
            first,
            semi1: self.tok(";"),
            test: Some(self.boxed(Expr::Name(self.id("a")))),
            semi2: self.tok(";"),
            last,
            right: self.tok(")"),
        };
        self.boxed(Stmt::For {
            head: self.boxed(head),
            body: self.empty(),
        })
    }

    pub(crate) fn one_expr(&self, expr: Box<Expr>) -> Option<Many<Expr>> {
        Some(Many {
            first: expr,
            rest: self.none(),
        })
    }

    /// `int a;` with these modifiers.
    pub(crate) fn local(&self, mods: List<Mod>) -> Box<Stmt> {
        let var = Var {
            id: self.tok("a"),
            dims: self.no_dims(),
            init: None,
        };
        let local = Local {
            mods,
            used_type: self.prim(self.no_dims()),
            vars: self.only(var),
        };
        self.boxed(Stmt::Local(self.boxed(local), self.tok(";")))
    }

    pub(crate) fn block(&self) -> Block {
        Block {
            left: self.tok("{"),
            list: self.none(),
            right: self.tok("}"),
        }
    }

    /// `finally {}`
    pub(crate) fn last(&self) -> Option<(Tok, Box<Block>)> {
        Some((self.tok("finally"), self.boxed(self.block())))
    }

    pub(crate) fn try_with(&self, last: Option<(Tok, Box<Block>)>) -> Box<Stmt> {
        self.boxed(Stmt::Try {
            word: self.tok("try"),
            body: self.boxed(self.block()),
            catches: self.none(),
            last,
        })
    }
}
