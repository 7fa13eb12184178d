ghost use Rattle.std.specs.Prelude.{option_map};
ghost use Rattle.rf_jtree.specs.StmtShown.{local_shown};
ghost use Rattle.rf_jtree.specs.StmtTrees as trees;
ghost use Rattle.rf_jmake.specs.ExprMade.{boxed_shown};
ghost use Rattle.rf_jmake.specs.StmtMade.{boxed_message_shown, MakesStmt};

use crate::boxes::put;
use crate::stmts::boxed;
use rf_jtree::{Expr, Local, Stmt, Tok};
use rf_text::Memory;
use std::alloc::Global;

// Statements that hold no other statement, of their parts.

/// `;` (JLS 14.6).
pub fn empty_of(alloc: Global, semi: Tok) -> Result<Box<Stmt>, Memory>
    ensures { MakesStmt result (trees.Empty semi) }
{
    boxed(alloc, Stmt::Empty(semi))
}

/// An expression as a statement (JLS 14.8).
pub fn expression_of(alloc: Global, expression: Box<Expr>, semi: Tok) -> Result<Box<Stmt>, Memory>
    ensures { MakesStmt result (trees.Expression (boxed_shown expression) semi) }
{
    boxed(alloc, Stmt::Expression(expression, semi))
}

/// `break` or `continue` (JLS 14.15, 14.16).
pub fn jump_of(alloc: Global, word: Tok, label: Option<Tok>, semi: Tok) -> Result<Box<Stmt>, Memory>
    ensures { MakesStmt result (trees.Jump word label semi) }
{
    boxed(alloc, Stmt::Jump(word, label, semi))
}

/// `return` (JLS 14.17).
pub fn return_of(
    alloc: Global,
    word: Tok,
    expression: Option<Box<Expr>>,
    semi: Tok,
) -> Result<Box<Stmt>, Memory>
    ensures { MakesStmt result (trees.Return word (option_map boxed_shown expression) semi) }
{
    boxed(alloc, Stmt::Return(word, expression, semi))
}

/// `throw` (JLS 14.18).
pub fn throw_of(
    alloc: Global,
    word: Tok,
    expression: Box<Expr>,
    semi: Tok,
) -> Result<Box<Stmt>, Memory>
    ensures { MakesStmt result (trees.Throw word (boxed_shown expression) semi) }
{
    boxed(alloc, Stmt::Throw(word, expression, semi))
}

/// `assert` (JLS 14.10).
pub fn assert_of(
    alloc: Global,
    word: Tok,
    test: Box<Expr>,
    message: Option<(Tok, Box<Expr>)>,
    semi: Tok,
) -> Result<Box<Stmt>, Memory>
    ensures { MakesStmt result (trees.Assert word (boxed_shown test)
        (option_map boxed_message_shown message) semi) }
{
    boxed(alloc, Stmt::Assert(word, test, message, semi))
}

/// A local declaration as a statement (JLS 14.4).
pub fn local_of(alloc: Global, local: Local, semi: Tok) -> Result<Box<Stmt>, Memory>
    ensures { MakesStmt result (trees.StmtTree.Local (local_shown local) semi) }
{
    let local = put(alloc, local)?;
    boxed(alloc, Stmt::Local(local, semi))
}
