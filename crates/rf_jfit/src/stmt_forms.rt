ghost use Rattle.std.specs.Prelude.{◌≡◌, ◌↔◌, IsTrue};
ghost use Rattle.rf_jtree.specs.ExprShown.{expr_shown, exprs_shown, more_exprs_shown};
ghost use Rattle.rf_jtree.specs.StmtFits.{IsNoLocal, IsStatementExpr, AreStatementExprs, AreMoreStatementExprs, ends_open, IsNearestIf, HasCatchOrLast};
ghost use Rattle.rf_jtree.specs.StmtShown.{stmt_shown, other_shown, catches_shown, last_shown};

use crate::kinds::is_op_of;
use rf_jtree::operator_names::SUFFIXES;
use rf_jtree::{Block, Catch, Expr, Many, Stmt, Tok};

/// Whether a statement is no local declaration.
#[tactic(auto, using(rf_jtree::proofs::StmtShows::stmt_shows))]
pub fn is_no_local(stmt: &Stmt) -> bool
    ensures { IsTrue result ↔ IsNoLocal (stmt_shown stmt.now) }
{
    match stmt {
        Stmt::Local(_, _) => false,
        Stmt::Block(_)
        | Stmt::Empty(_)
        | Stmt::Label(_, _, _)
        | Stmt::Expression(_, _)
        | Stmt::If { .. }
        | Stmt::While { .. }
        | Stmt::Do { .. }
        | Stmt::For { .. }
        | Stmt::Each { .. }
        | Stmt::Switch { .. }
        | Stmt::Jump(_, _, _)
        | Stmt::Return(_, _, _)
        | Stmt::Throw(_, _, _)
        | Stmt::Sync { .. }
        | Stmt::Assert(_, _, _, _)
        | Stmt::Try { .. } => true,
    }
}

/// Whether an expression may stand as a statement.
#[tactic(auto, using(rf_jtree::proofs::ExprShows::expr_shows))]
pub fn is_statement_expr(expr: &Expr) -> bool
    ensures { IsTrue result ↔ IsStatementExpr (expr_shown expr.now) }
{
    match expr {
        Expr::Assign(_, _, _) | Expr::Postfix(_, _) | Expr::Call { .. } | Expr::New(_, _, _) => {
            true
        }
        Expr::Unary(op, _) => is_op_of(op, &SUFFIXES),
        Expr::Super { args, .. } => args.is_some(),
        Expr::Cond(_, _, _, _, _)
        | Expr::Binary(_, _, _)
        | Expr::Instance(_, _, _)
        | Expr::Cast(_, _, _, _)
        | Expr::Lit(_)
        | Expr::This(_)
        | Expr::Paren(_, _, _)
        | Expr::Name(_)
        | Expr::Field(_, _, _)
        | Expr::Index(_, _, _, _)
        | Expr::NewArray { .. }
        | Expr::NewInit { .. } => false,
    }
}

fn are_more_statement_exprs(rest: &[(Tok, Expr)]) -> bool
    ensures { IsTrue result ↔ AreMoreStatementExprs (more_exprs_shown rest.now) }
{
    match rest {
        [] => true,
        [item, more @ ..] => is_statement_expr(&item.1) && are_more_statement_exprs(more),
    }
}

/// Whether each of the expressions may stand as a statement.
pub fn are_statement_exprs(exprs: &Option<Many<Expr>>) -> bool
    ensures { IsTrue result ↔ AreStatementExprs (exprs_shown exprs.now) }
{
    match exprs {
        None => true,
        Some(many) => {
            is_statement_expr(&many.first) && are_more_statement_exprs(many.rest.as_slice())
        }
    }
}

/// Whether an `else` behind the statement would go on with it.
#[tactic(auto, using(rf_jtree::proofs::StmtShows::stmt_shows))]
pub fn ends_open(stmt: &Stmt) -> bool
    ensures { result ≡ ends_open (stmt_shown stmt.now) }
{
    match stmt {
        Stmt::Label(_, _, body)
        | Stmt::While { body, .. }
        | Stmt::For { body, .. }
        | Stmt::Each { body, .. } => ends_open(body),
        Stmt::If { other, .. } => match other {
            None => true,
            Some((_, last)) => ends_open(last),
        },
        Stmt::Block(_)
        | Stmt::Empty(_)
        | Stmt::Local(_, _)
        | Stmt::Expression(_, _)
        | Stmt::Do { .. }
        | Stmt::Switch { .. }
        | Stmt::Jump(_, _, _)
        | Stmt::Return(_, _, _)
        | Stmt::Throw(_, _, _)
        | Stmt::Sync { .. }
        | Stmt::Assert(_, _, _, _)
        | Stmt::Try { .. } => false,
    }
}

/// Whether no nearer `if` stands before the `else`.
pub fn is_nearest_if(then: &Stmt, other: &Option<(Tok, Box<Stmt>)>) -> bool
    ensures { IsTrue result ↔ IsNearestIf (stmt_shown then.now) (other_shown other.now) }
{
    match other {
        None => true,
        Some(_) => !ends_open(then),
    }
}

/// Whether a `try` has one of its other parts.
pub fn has_catch_or_last(catches: &[Catch], last: &Option<(Tok, Box<Block>)>) -> bool
    ensures { IsTrue result ↔ HasCatchOrLast (catches_shown catches.now) (last_shown last.now) }
{
    match catches {
        [] => last.is_some(),
        [_, _others @ ..] => true,
    }
}
