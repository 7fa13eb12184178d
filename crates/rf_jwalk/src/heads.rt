#![tactic(auto, using(rf_jview::proofs::Walks::variables, std::proofs::lemmas::Grind::common_steps))]

ghost use Rattle.std.specs.Prelude.{◌≡◌, ◌++◌, OnOk, option_map};
ghost use Rattle.rf_jtree.specs.ExprShown.{expr_shown, exprs_shown};
ghost use Rattle.rf_jtree.specs.NameShown.{name_shown, mods_shown, type_shown};
ghost use Rattle.rf_jtree.specs.StmtShown.{first_shown, boxed_expr_shown, optional_expr_shown, message_shown};
ghost use Rattle.rf_jview.specs.Accounts.{back_of, noted};
ghost use Rattle.rf_jview.specs.ExprMarks.{expr_marks};
ghost use Rattle.rf_jview.specs.NameMarks.{type_name_marks, option_marks, behind_marks};
ghost use Rattle.rf_jview.specs.StmtMarks.{head_marks, for_head_marks, over_marks, each_head_marks, catch_head_marks};
ghost use Rattle.rf_jwalk.specs.Parts.{tests_marks};

use crate::vars::first;
use rf_jtree::{EachHead, Expr, ForHead, Head, Name, Tok};
use rf_jview::accounts::{await_block, note, plain, point};
use rf_jview::exprs::{expr, exprs};
use rf_jview::mods::{modifiers, optional_tok};
use rf_jview::names::{type_name, type_use};
use rf_jview::{Account, Mark};
use rf_text::Memory;

/// An expression, if it stands.
pub fn optional_expr(expression: &Option<Box<Expr>>, account: &mut Account) -> Result<(), Memory>
    ensures { OnOk result (account.new ≡ noted account.old
        (option_marks expr_marks (optional_expr_shown expression.now))) }
{
    match expression {
        None => Ok(()),
        Some(expression) => expr(expression, account),
    }
}

fn message(expression: &Option<(Tok, Box<Expr>)>, account: &mut Account) -> Result<(), Memory>
    ensures { OnOk result (account.new ≡ noted account.old
        (option_marks (behind_marks expr_marks) (option_map message_shown expression.now))) }
{
    match expression {
        None => Ok(()),
        Some(expression) => {
            plain(account)?;
            expr(&expression.1, account)
        }
    }
}

/// What stands between `assert` and its `;`.
pub fn assertion(
    test: &Expr,
    told: &Option<(Tok, Box<Expr>)>,
    account: &mut Account,
) -> Result<(), Memory>
    ensures { OnOk result (account.new ≡ noted account.old
        (expr_marks (expr_shown test.now)
        ++ option_marks (behind_marks expr_marks) (option_map message_shown told.now))) }
{
    expr(test, account)?;
    message(told, account)
}

/// A keyword with an expression in parentheses.
pub fn head(head: &Head, account: &mut Account) -> Result<(), Memory>
    ensures { OnOk result
        (account.new ≡ noted account.old (head_marks (boxed_expr_shown head.now.expression))) }
{
    plain(account)?;
    plain(account)?;
    expr(&head.expression, account)?;
    plain(account)
}

fn tests(head: &ForHead, account: &mut Account) -> Result<(), Memory>
    ensures { OnOk result (account.new ≡ noted account.old
        (tests_marks (optional_expr_shown head.now.test) (exprs_shown head.now.last))) }
{
    plain(account)?;
    optional_expr(&head.test, account)?;
    plain(account)?;
    exprs(&head.last, account)?;
    plain(account)
}

/// A basic `for` from its `(` on, right behind the beginning of its block.
pub fn for_head(head: &ForHead, account: &mut Account) -> Result<(), Memory>
    requires { back_of account.old ≡ 1 }
    ensures { OnOk result (account.new ≡ noted account.old
        (for_head_marks (first_shown head.now.first) (optional_expr_shown head.now.test)
        (exprs_shown head.now.last))) }
{
    plain(account)?;
    first(&head.first, account)?;
    tests(head, account)
}

#[tactic(auto, using(rf_jview::proofs::Walks::points, std::proofs::lemmas::Grind::common_steps))]
fn over(tree: &Expr, account: &mut Account) -> Result<(), Memory>
    ensures { OnOk result (account.new ≡ noted account.old (over_marks (expr_shown tree.now))) }
{
    let start = await_block(account)?;
    plain(account)?;
    expr(tree, account)?;
    point(account, start);
    Ok(())
}

/// `for (T x : e` without its `)`.
pub fn each_head(head: &EachHead, account: &mut Account) -> Result<(), Memory>
    ensures { OnOk result (account.new ≡ noted account.old
        (each_head_marks (mods_shown head.now.mods) (type_shown head.now.used_type)
        (boxed_expr_shown head.now.over))) }
{
    plain(account)?;
    plain(account)?;
    modifiers(&head.mods, account)?;
    type_use(&head.used_type, account)?;
    over(&head.over, account)
}

/// `catch (T x)`.
pub fn catch_head(fixed: &Option<Tok>, name: &Name, account: &mut Account) -> Result<(), Memory>
    ensures { OnOk result (account.new ≡ noted account.old
        (catch_head_marks fixed.now (type_name_marks (name_shown name.now)))) }
{
    plain(account)?;
    plain(account)?;
    optional_tok(fixed, account)?;
    type_name(name, account)?;
    note(account, Mark::Ahead(2))?;
    plain(account)
}
