ghost use Rattle.std.specs.Prelude.{◌≡◌, ◌↔◌, IsTrue};
ghost use Rattle.rf_jfit.specs.ExprFirst.{expr_first};
ghost use Rattle.rf_jtree.specs.ExprFits.{IsLeftSide, begins_operand, IsNoName, IsNoNewArray};
ghost use Rattle.rf_jtree.specs.ExprShown.{expr_shown};
ghost use Rattle.rf_jtree.specs.Levels.{expr_level, BindsAt};

use crate::kinds::{has_key, has_op};
use crate::levels::binary_level;
use rf_jtree::keyword_names::OPERAND_WORDS;
use rf_jtree::levels::{
    ASSIGNMENT_LEVEL, COMPARISON_LEVEL, CONDITIONAL_LEVEL, POSTFIX_LEVEL, PRIMARY_LEVEL,
    UNARY_LEVEL,
};
use rf_jtree::operator_names::OPERAND_OPERATORS;
use rf_jtree::{Expr, Tok, TokKind, TypeBase, TypeUse};

/// How tightly an expression binds.
#[tactic(auto, using(rf_jtree::proofs::ExprShows::expr_shows))]
pub fn expr_level(expr: &Expr) -> usize
    ensures { result ≡ expr_level (expr_shown expr.now) }
{
    match expr {
        Expr::Assign(_, _, _) => ASSIGNMENT_LEVEL,
        Expr::Cond(_, _, _, _, _) => CONDITIONAL_LEVEL,
        Expr::Binary(_, op, _) => binary_level(op),
        Expr::Instance(_, _, _) => COMPARISON_LEVEL,
        Expr::Unary(_, _) | Expr::Cast(_, _, _, _) => UNARY_LEVEL,
        Expr::Postfix(_, _) => POSTFIX_LEVEL,
        Expr::Lit(_)
        | Expr::This(_)
        | Expr::Paren(_, _, _)
        | Expr::Name(_)
        | Expr::Call { .. }
        | Expr::Field(_, _, _)
        | Expr::Super { .. }
        | Expr::New(_, _, _)
        | Expr::Index(_, _, _, _)
        | Expr::NewArray { .. }
        | Expr::NewInit { .. } => PRIMARY_LEVEL,
    }
}

/// Whether an expression may stand where one of this level is wanted.
pub fn binds_at(level: usize, expr: &Expr) -> bool
    ensures { IsTrue result ↔ BindsAt level (expr_shown expr.now) }
{
    level <= expr_level(expr)
}

/// Whether an expression may stand on the left side of an assignment.
#[tactic(auto, using(rf_jtree::proofs::ExprShows::expr_shows))]
pub fn is_left_side(expr: &Expr) -> bool
    ensures { IsTrue result ↔ IsLeftSide (expr_shown expr.now) }
{
    match expr {
        Expr::Name(_) | Expr::Field(_, _, _) | Expr::Index(_, _, _, _) => true,
        Expr::Super { args, .. } => args.is_none(),
        Expr::Assign(_, _, _)
        | Expr::Cond(_, _, _, _, _)
        | Expr::Binary(_, _, _)
        | Expr::Instance(_, _, _)
        | Expr::Unary(_, _)
        | Expr::Cast(_, _, _, _)
        | Expr::Postfix(_, _)
        | Expr::Lit(_)
        | Expr::This(_)
        | Expr::Paren(_, _, _)
        | Expr::Call { .. }
        | Expr::New(_, _, _)
        | Expr::NewArray { .. }
        | Expr::NewInit { .. } => false,
    }
}

/// Whether an expression is none that takes a field behind it into its name.
#[tactic(auto, using(rf_jtree::proofs::ExprShows::expr_shows))]
pub fn is_no_name(expr: &Expr) -> bool
    ensures { IsTrue result ↔ IsNoName (expr_shown expr.now) }
{
    match expr {
        Expr::Name(_) => false,
        Expr::Assign(_, _, _)
        | Expr::Cond(_, _, _, _, _)
        | Expr::Binary(_, _, _)
        | Expr::Instance(_, _, _)
        | Expr::Unary(_, _)
        | Expr::Cast(_, _, _, _)
        | Expr::Postfix(_, _)
        | Expr::Lit(_)
        | Expr::This(_)
        | Expr::Paren(_, _, _)
        | Expr::Call { .. }
        | Expr::Field(_, _, _)
        | Expr::Super { .. }
        | Expr::New(_, _, _)
        | Expr::Index(_, _, _, _)
        | Expr::NewArray { .. }
        | Expr::NewInit { .. } => true,
    }
}

/// Whether an expression is none that takes the brackets behind it.
#[tactic(auto, using(rf_jtree::proofs::ExprShows::expr_shows))]
pub fn is_no_new_array(expr: &Expr) -> bool
    ensures { IsTrue result ↔ IsNoNewArray (expr_shown expr.now) }
{
    match expr {
        Expr::NewArray { .. } => false,
        Expr::Assign(_, _, _)
        | Expr::Cond(_, _, _, _, _)
        | Expr::Binary(_, _, _)
        | Expr::Instance(_, _, _)
        | Expr::Unary(_, _)
        | Expr::Cast(_, _, _, _)
        | Expr::Postfix(_, _)
        | Expr::Lit(_)
        | Expr::This(_)
        | Expr::Paren(_, _, _)
        | Expr::Name(_)
        | Expr::Call { .. }
        | Expr::Field(_, _, _)
        | Expr::Super { .. }
        | Expr::New(_, _, _)
        | Expr::Index(_, _, _, _)
        | Expr::NewInit { .. } => true,
    }
}

/// The token that an expression begins with.
#[tactic(auto, using(rf_jtree::proofs::ExprShows::expr_shows))]
pub fn expr_first(expr: &Expr) -> &Tok
    ensures { result.now ≡ expr_first (expr_shown expr.now) }
{
    match expr {
        Expr::Assign(inner, _, _)
        | Expr::Cond(inner, _, _, _, _)
        | Expr::Binary(inner, _, _)
        | Expr::Instance(inner, _, _)
        | Expr::Postfix(inner, _)
        | Expr::Field(inner, _, _)
        | Expr::Index(inner, _, _, _) => expr_first(inner),
        Expr::Unary(tok, _)
        | Expr::Cast(tok, _, _, _)
        | Expr::Lit(tok)
        | Expr::This(tok)
        | Expr::Paren(tok, _, _)
        | Expr::New(tok, _, _) => tok,
        Expr::Name(name) => &name.ids.first,
        Expr::Call { on, id, .. } => match on {
            Some(on) => expr_first(&on.0),
            None => id,
        },
        Expr::Super { word, .. } | Expr::NewArray { word, .. } | Expr::NewInit { word, .. } => word,
    }
}

/// Whether the operand of a cast to a class or an array may begin with this token.
pub fn begins_operand(tok: &Tok) -> bool
    ensures { result ≡ begins_operand tok.now }
{
    match tok.kind {
        TokKind::Key(word) => has_key(&OPERAND_WORDS, word),
        TokKind::Op(op) => has_op(&OPERAND_OPERATORS, op),
        TokKind::Ident
        | TokKind::Int
        | TokKind::Long
        | TokKind::Float
        | TokKind::Double
        | TokKind::Char
        | TokKind::Str
        | TokKind::True
        | TokKind::False
        | TokKind::Null => true,
    }
}
