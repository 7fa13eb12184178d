#![tactic(auto, using(rf_jview::proofs::Walks::variables, std::proofs::lemmas::Grind::common_steps))]

ghost use Rattle.std.specs.Prelude.{◌≡◌, OnOk, option_map};
ghost use Rattle.rf_jtree.specs.NameShown.{many_shown};
ghost use Rattle.rf_jtree.specs.StmtShown.{beginning_shown, var_shown, more_vars_shown, local_shown, first_shown};
ghost use Rattle.rf_jview.specs.Accounts.{back_of, noted};
ghost use Rattle.rf_jview.specs.ExprMarks.{init_marks};
ghost use Rattle.rf_jview.specs.NameMarks.{option_marks, behind_marks};
ghost use Rattle.rf_jview.specs.StmtMarks.{beginning_marks, local_var_marks, more_locals_marks, locals_marks, local_marks, first_marks};

use rf_jtree::{ForFirst, Init, Local, Many, Tok, Var};
use rf_jview::Account;
use rf_jview::accounts::{local, plain};
use rf_jview::exprs::{exprs, init};
use rf_jview::mods::modifiers;
use rf_jview::names::{dims, type_use};
use rf_text::{List, Memory};

fn optional_init(expression: &Option<(Tok, Init)>, account: &mut Account) -> Result<(), Memory>
    ensures { OnOk result (account.new ≡ noted account.old
        (option_marks (behind_marks init_marks) (option_map beginning_shown expression.now))) }
{
    match expression {
        None => Ok(()),
        Some(expression) => {
            plain(account)?;
            init(&expression.1, account)
        }
    }
}

/// What stands behind the identifier of a variable.
pub fn beginning(var: &Var, account: &mut Account) -> Result<(), Memory>
    ensures { OnOk result (account.new ≡ noted account.old (beginning_marks (var_shown var.now))) }
{
    dims(&var.dims, account)?;
    optional_init(&var.init, account)
}

fn local_var(var: &Var, account: &mut Account) -> Result<(), Memory>
    ensures { OnOk result (account.new ≡ noted account.old
        (local_var_marks (back_of account.old) (var_shown var.now))) }
{
    local(account)?;
    beginning(var, account)
}

fn more_locals(rest: &List<(Tok, Var)>, account: &mut Account) -> Result<(), Memory>
    ensures { OnOk result (account.new ≡ noted account.old
        (more_locals_marks (back_of account.old) (more_vars_shown rest.now))) }
{
    for item in rest.as_slice() {
        plain(account)?;
        local_var(&item.1, account)?;
    }
    Ok(())
}

fn locals(vars: &Many<Var>, account: &mut Account) -> Result<(), Memory>
    ensures { OnOk result (account.new ≡ noted account.old
        (locals_marks (back_of account.old) (many_shown var_shown vars.now))) }
{
    local_var(&vars.first, account)?;
    more_locals(&vars.rest, account)
}

/// A local declaration, without its `;`.
pub fn local_declaration(declaration: &Local, account: &mut Account) -> Result<(), Memory>
    ensures { OnOk result (account.new ≡ noted account.old
        (local_marks (back_of account.old) (local_shown declaration.now))) }
{
    modifiers(&declaration.mods, account)?;
    type_use(&declaration.used_type, account)?;
    locals(&declaration.vars, account)
}

/// What a basic `for` begins with.
pub fn first(first: &ForFirst, account: &mut Account) -> Result<(), Memory>
    ensures { OnOk result (account.new ≡ noted account.old
        (first_marks (back_of account.old) (first_shown first.now))) }
{
    match first {
        ForFirst::Local(declaration) => local_declaration(declaration, account),
        ForFirst::Exprs(list) => exprs(list, account),
    }
}
