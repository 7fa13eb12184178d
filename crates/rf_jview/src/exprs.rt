#![tactic(auto, using(rf_jtree::proofs::ExprShows::expr_shows, crate::proofs::Walks::walks, std::proofs::lemmas::Grind::common_steps))]

ghost use Rattle.std.specs.Prelude.{◌≡◌, OnOk, Some};
ghost use Rattle.rf_jtree.specs.ExprShown.{expr_shown, on_shown, args_shown, super_args_shown, exprs_shown, more_exprs_shown, sizes_shown, init_shown, braces_shown, inits_shown, more_inits_shown};
ghost use Rattle.rf_jview.specs.Accounts.{noted};
ghost use Rattle.rf_jview.specs.ExprMarks.{expr_marks, on_marks, args_marks, super_marks, exprs_marks, more_exprs_marks, sizes_marks, init_marks, braces_marks, inits_marks, more_inits_marks};

use crate::accounts::{here, invoke, note, plain};
use crate::mods::optional_tok;
use crate::names::{base, dims, name, type_name, type_use};
use crate::{Account, Invocation, Mark};
use rf_jtree::{Args, Braces, Expr, Init, Many, Tok};
use rf_text::{List, Memory};

/// An expression. It goes as deep as the expression.
#[cycle(expr)]
pub fn expr(tree: &Expr, account: &mut Account) -> Result<(), Memory>
    ensures { OnOk result (account.new ≡ noted account.old (expr_marks (expr_shown tree.now))) }
{
    match tree {
        Expr::Assign(left, _op, operand) => {
            expr(left, account)?;
            plain(account)?;
            expr(operand, account)
        }
        Expr::Cond(test, _mark, then, _colon, other) => {
            expr(test, account)?;
            plain(account)?;
            expr(then, account)?;
            plain(account)?;
            expr(other, account)
        }
        Expr::Binary(left, _op, right) => {
            expr(left, account)?;
            plain(account)?;
            expr(right, account)
        }
        Expr::Instance(operand, _word, of) => {
            expr(operand, account)?;
            plain(account)?;
            type_use(of, account)
        }
        Expr::Unary(_op, operand) => {
            plain(account)?;
            expr(operand, account)
        }
        Expr::Cast(_left, to, _right, operand) => {
            plain(account)?;
            type_use(to, account)?;
            plain(account)?;
            expr(operand, account)
        }
        Expr::Postfix(operand, _op) => {
            expr(operand, account)?;
            plain(account)
        }
        Expr::Lit(_tok) => plain(account),
        Expr::This(_tok) => plain(account),
        Expr::Paren(_left, operand, _right) => {
            plain(account)?;
            expr(operand, account)?;
            plain(account)
        }
        Expr::Name(named) => name(named, account),
        Expr::Call {
            on: operand,
            id: _id,
            args: list,
        } => {
            on(operand, account)?;
            plain(account)?;
            args(list, Invocation::Method, 1, account)
        }
        Expr::Field(operand, _dot, _id) => {
            expr(operand, account)?;
            plain(account)?;
            note(account, Mark::FieldAccess)
        }
        Expr::Super {
            word: _word,
            dot: _dot,
            id: _id,
            args: list,
        } => {
            plain(account)?;
            plain(account)?;
            super_args(list, account)
        }
        Expr::New(_word, named, list) => {
            plain(account)?;
            type_name(named, account)?;
            args(list, Invocation::Creation, 2, account)
        }
        Expr::Index(operand, _left, index, _right) => {
            expr(operand, account)?;
            plain(account)?;
            expr(index, account)?;
            plain(account)
        }
        Expr::NewArray {
            word: _word,
            base: of,
            sizes: list,
            dims: more,
        } => {
            plain(account)?;
            base(of, account)?;
            sizes(list, account)?;
            dims(more, account)
        }
        Expr::NewInit {
            word: _word,
            base: of,
            dims: all,
            init: items,
        } => {
            plain(account)?;
            base(of, account)?;
            dims(all, account)?;
            braces(items, account)
        }
    }
}

#[cycle(expr)]
fn on(operand: &Option<Box<(Box<Expr>, Tok)>>, account: &mut Account) -> Result<(), Memory>
    ensures { OnOk result (account.new ≡ noted account.old (on_marks (on_shown operand.now))) }
{
    match operand {
        None => Ok(()),
        Some(operand) => {
            expr(&operand.0, account)?;
            plain(account)
        }
    }
}

/// Arguments, with `(` so far behind the identifier or the keyword of what is invoked.
#[cycle(expr)]
#[tactic(auto, using(rf_jtree::proofs::ExprShows::args_shown_out, crate::proofs::Walks::calls, std::proofs::lemmas::Grind::common_steps))]
pub fn args(
    args: &Args,
    invocation: Invocation,
    back: u32,
    account: &mut Account,
) -> Result<(), Memory>
    ensures { OnOk result (account.new ≡ noted account.old
        (args_marks invocation back (args_shown args.now))) }
{
    let from = here(account);
    plain(account)?;
    exprs(&args.list, account)?;
    invoke(account, invocation, back, from)
}

#[cycle(expr)]
fn super_args(list: &Option<Box<Args>>, account: &mut Account) -> Result<(), Memory>
    ensures { OnOk result
        (account.new ≡ noted account.old (super_marks (super_args_shown list.now))) }
{
    match list {
        None => note(account, Mark::FieldAccess),
        Some(list) => {
            plain(account)?;
            args(list, Invocation::Method, 1, account)
        }
    }
}

/// Any number of expressions with commas between them.
#[cycle(expr)]
pub fn exprs(list: &Option<Many<Expr>>, account: &mut Account) -> Result<(), Memory>
    ensures { OnOk result (account.new ≡ noted account.old (exprs_marks (exprs_shown list.now))) }
{
    match list {
        None => Ok(()),
        Some(many) => many_exprs(many, account),
    }
}

#[cycle(expr)]
fn many_exprs(many: &Many<Expr>, account: &mut Account) -> Result<(), Memory>
    ensures { OnOk result
        (account.new ≡ noted account.old (exprs_marks (exprs_shown (Some many.now)))) }
{
    expr(&many.first, account)?;
    more_exprs(&many.rest, account)
}

#[cycle(expr)]
fn more_exprs(rest: &List<(Tok, Expr)>, account: &mut Account) -> Result<(), Memory>
    ensures { OnOk result
        (account.new ≡ noted account.old (more_exprs_marks (more_exprs_shown rest.now))) }
{
    for item in rest.as_slice() {
        plain(account)?;
        expr(&item.1, account)?;
    }
    Ok(())
}

#[cycle(expr)]
fn sizes(list: &List<(Tok, Expr, Tok)>, account: &mut Account) -> Result<(), Memory>
    ensures { OnOk result (account.new ≡ noted account.old (sizes_marks (sizes_shown list.now))) }
{
    for size in list.as_slice() {
        plain(account)?;
        expr(&size.1, account)?;
        plain(account)?;
    }
    Ok(())
}

/// What a variable or an array item begins with.
#[cycle(expr)]
pub fn init(tree: &Init, account: &mut Account) -> Result<(), Memory>
    ensures { OnOk result (account.new ≡ noted account.old (init_marks (init_shown tree.now))) }
{
    match tree {
        Init::Expression(operand) => expr(operand, account),
        Init::Braced(items) => braces(items, account),
    }
}

#[cycle(expr)]
#[tactic(auto, using(rf_jtree::proofs::ExprShows::braces_shown_out, crate::proofs::Walks::walks, std::proofs::lemmas::Grind::common_steps))]
fn braces(braces: &Braces, account: &mut Account) -> Result<(), Memory>
    ensures { OnOk result
        (account.new ≡ noted account.old (braces_marks (braces_shown braces.now))) }
{
    plain(account)?;
    inits(&braces.items, account)?;
    optional_tok(&braces.comma, account)?;
    plain(account)
}

#[cycle(expr)]
fn inits(list: &Option<Many<Init>>, account: &mut Account) -> Result<(), Memory>
    ensures { OnOk result (account.new ≡ noted account.old (inits_marks (inits_shown list.now))) }
{
    match list {
        None => Ok(()),
        Some(many) => many_inits(many, account),
    }
}

#[cycle(expr)]
fn many_inits(many: &Many<Init>, account: &mut Account) -> Result<(), Memory>
    ensures { OnOk result
        (account.new ≡ noted account.old (inits_marks (inits_shown (Some many.now)))) }
{
    init(&many.first, account)?;
    more_inits(&many.rest, account)
}

#[cycle(expr)]
fn more_inits(rest: &List<(Tok, Init)>, account: &mut Account) -> Result<(), Memory>
    ensures { OnOk result
        (account.new ≡ noted account.old (more_inits_marks (more_inits_shown rest.now))) }
{
    for item in rest.as_slice() {
        plain(account)?;
        init(&item.1, account)?;
    }
    Ok(())
}
