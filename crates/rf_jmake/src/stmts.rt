ghost use Rattle.std.specs.Prelude.{◌≡◌};
ghost use Rattle.rf_jtree.specs.StmtShown.{block_shown, catch_shown, catches_tree, group_shown, groups_tree, last_shown, optional_expr_shown, other_shown, stmts_shown};
ghost use Rattle.rf_jtree.specs.StmtShown.{if_tree, while_tree, do_tree, for_tree, each_tree, switch_tree, sync_tree};
ghost use Rattle.rf_jtree.specs.StmtTrees as trees;
ghost use Rattle.rf_jtree.specs.StmtShown.{stmt_shown};
ghost use Rattle.rf_jtree.specs.NameShown.{name_shown};
ghost use Rattle.rf_jmake.specs.StmtMade.{boxed_stmt_shown, MakesStmt, catches_found, groups_found};

use crate::boxes::put;
use rf_jtree::{Block, Catch, EachHead, Expr, ForHead, Group, Head, Name, Stmt, Tok};
use rf_text::{List, Memory};
use std::alloc::Global;

// Statements, and their parts, of lesser parts. What is read stands behind pointers from the first, so that each form is
// one step.

/// A catch clause up to its block (JLS 14.20).
#[derive(Drop)]
pub struct CatchHead {
    pub word: Tok,
    pub left: Tok,
    pub fixed: Option<Tok>,
    pub name: Name,
    pub id: Tok,
    pub right: Tok,
}

/// A statement behind a pointer.
pub fn boxed(alloc: Global, stmt: Stmt) -> Result<Box<Stmt>, Memory>
    ensures { MakesStmt result (stmt_shown stmt) }
{
    Ok(put(alloc, stmt)?)
}

/// Statements in braces (JLS 14.2).
pub fn braces_of(left: Tok, list: List<Stmt>, right: Tok) -> Block
    ensures { block_shown result ≡ trees.Braces left (stmts_shown list) right }
{
    Block { left, list, right }
}

/// A block as a statement (JLS 14.2).
pub fn block_of(alloc: Global, block: Block) -> Result<Box<Stmt>, Memory>
    ensures { MakesStmt result (trees.Block (block_shown block)) }
{
    boxed(alloc, Stmt::Block(block))
}

/// A labeled statement (JLS 14.7).
pub fn label_of(alloc: Global, id: Tok, colon: Tok, body: Box<Stmt>) -> Result<Box<Stmt>, Memory>
    ensures { MakesStmt result (trees.Label id colon (boxed_stmt_shown body)) }
{
    boxed(alloc, Stmt::Label(id, colon, body))
}

/// `if`, with an `else` or without (JLS 14.9).
pub fn if_of(
    alloc: Global,
    head: Box<Head>,
    then: Box<Stmt>,
    other: Option<(Tok, Box<Stmt>)>,
) -> Result<Box<Stmt>, Memory>
    ensures { MakesStmt result (if_tree head.value (boxed_stmt_shown then) (other_shown other)) }
{
    boxed(alloc, Stmt::If { head, then, other })
}

/// `while` (JLS 14.12).
pub fn while_of(alloc: Global, head: Box<Head>, body: Box<Stmt>) -> Result<Box<Stmt>, Memory>
    ensures { MakesStmt result (while_tree head.value (boxed_stmt_shown body)) }
{
    boxed(alloc, Stmt::While { head, body })
}

/// `do` (JLS 14.13).
pub fn do_of(
    alloc: Global,
    word: Tok,
    body: Box<Stmt>,
    until: Box<Head>,
    semi: Tok,
) -> Result<Box<Stmt>, Memory>
    ensures { MakesStmt result (do_tree word (boxed_stmt_shown body) until.value semi) }
{
    boxed(
        alloc,
        Stmt::Do {
            word,
            body,
            until,
            semi,
        },
    )
}

/// A basic `for` (JLS 14.14.1).
pub fn for_of(alloc: Global, head: Box<ForHead>, body: Box<Stmt>) -> Result<Box<Stmt>, Memory>
    ensures { MakesStmt result (for_tree head.value (boxed_stmt_shown body)) }
{
    boxed(alloc, Stmt::For { head, body })
}

/// A `for` over what an expression gives (JLS 14.14.2).
pub fn each_of(alloc: Global, head: Box<EachHead>, body: Box<Stmt>) -> Result<Box<Stmt>, Memory>
    ensures { MakesStmt result (each_tree head.value (boxed_stmt_shown body)) }
{
    boxed(alloc, Stmt::Each { head, body })
}

/// A group of a `switch`.
pub fn group_of(word: Tok, expression: Option<Box<Expr>>, colon: Tok, body: List<Stmt>) -> Group
    ensures { group_shown result ≡ trees.Group word (optional_expr_shown expression) colon
        (stmts_shown body) }
{
    Group {
        word,
        expression,
        colon,
        body,
    }
}

/// `switch` (JLS 14.11).
pub fn switch_of(
    alloc: Global,
    head: Box<Head>,
    brace: Tok,
    groups: List<Group>,
    end: Tok,
) -> Result<Box<Stmt>, Memory>
    ensures { MakesStmt result (switch_tree head.value brace (groups_tree (groups_found groups))
        end) }
{
    boxed(
        alloc,
        Stmt::Switch {
            head,
            brace,
            groups,
            end,
        },
    )
}

/// `synchronized` (JLS 14.19).
pub fn sync_of(alloc: Global, head: Box<Head>, body: Block) -> Result<Box<Stmt>, Memory>
    ensures { MakesStmt result (sync_tree head.value (block_shown body)) }
{
    let body = put(alloc, body)?;
    boxed(alloc, Stmt::Sync { head, body })
}

/// A catch clause.
pub fn catch_of(head: CatchHead, body: Block) -> Catch
    ensures { catch_shown result ≡ trees.Catch head.word head.left head.fixed (name_shown head.name)
        head.id head.right (block_shown body) }
{
    Catch {
        word: head.word,
        left: head.left,
        fixed: head.fixed,
        name: head.name,
        id: head.id,
        right: head.right,
        body,
    }
}

/// `try` (JLS 14.20).
pub fn try_of(
    alloc: Global,
    word: Tok,
    body: Block,
    catches: List<Catch>,
    last: Option<(Tok, Box<Block>)>,
) -> Result<Box<Stmt>, Memory>
    ensures { MakesStmt result (trees.Try word (block_shown body)
        (catches_tree (catches_found catches)) (last_shown last)) }
{
    let body = put(alloc, body)?;
    boxed(
        alloc,
        Stmt::Try {
            word,
            body,
            catches,
            last,
        },
    )
}
