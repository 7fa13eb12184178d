#![tactic(auto, using(rf_jview::proofs::Walks::variables, std::proofs::lemmas::Grind::common_steps))]

ghost use Rattle.std.specs.Prelude.{◌≡◌, OnOk, option_map};
ghost use Rattle.rf_jtree.specs.DeclShown.{names_shown, param_shown, more_params_shown};
ghost use Rattle.rf_jtree.specs.NameShown.{many_shown, name_shown};
ghost use Rattle.rf_jview.specs.Accounts.{back_of, noted};
ghost use Rattle.rf_jview.specs.DeclMarks.{names_marks, param_marks, more_params_marks, many_params_marks, params_marks};
ghost use Rattle.rf_jview.specs.NameMarks.{type_name_marks, many_marks};

use rf_jtree::{Many, Name, Param, Tok};
use rf_jview::Account;
use rf_jview::accounts::{local, plain};
use rf_jview::mods::modifiers;
use rf_jview::names::{dims, type_name, type_use};
use rf_text::{List, Memory};

fn many_names(many: &Many<Name>, account: &mut Account) -> Result<(), Memory>
    ensures { OnOk result (account.new ≡ noted account.old
        (many_marks type_name_marks (many_shown name_shown many.now))) }
{
    type_name(&many.first, account)?;
    for item in many.rest.as_slice() {
        plain(account)?;
        type_name(&item.1, account)?;
    }
    Ok(())
}

/// Names of types behind a keyword, if they stand.
pub fn names(list: &Option<(Tok, Many<Name>)>, account: &mut Account) -> Result<(), Memory>
    ensures { OnOk result
        (account.new ≡ noted account.old (names_marks (option_map names_shown list.now))) }
{
    match list {
        None => Ok(()),
        Some(list) => {
            plain(account)?;
            many_names(&list.1, account)
        }
    }
}

fn param(param: &Param, account: &mut Account) -> Result<(), Memory>
    ensures { OnOk result (account.new ≡ noted account.old
        (param_marks (back_of account.old) (param_shown param.now))) }
{
    modifiers(&param.mods, account)?;
    type_use(&param.used_type, account)?;
    local(account)?;
    dims(&param.dims, account)
}

fn more_params(rest: &List<(Tok, Param)>, account: &mut Account) -> Result<(), Memory>
    ensures { OnOk result (account.new ≡ noted account.old
        (more_params_marks (back_of account.old) (more_params_shown rest.now))) }
{
    for item in rest.as_slice() {
        plain(account)?;
        param(&item.1, account)?;
    }
    Ok(())
}

fn many_params(many: &Many<Param>, account: &mut Account) -> Result<(), Memory>
    ensures { OnOk result (account.new ≡ noted account.old
        (many_params_marks (back_of account.old) (many_shown param_shown many.now))) }
{
    param(&many.first, account)?;
    more_params(&many.rest, account)
}

/// Parameters without their parentheses, right behind the beginning of their block.
pub fn params(list: &Option<Many<Param>>, account: &mut Account) -> Result<(), Memory>
    requires { back_of account.old ≡ 1 }
    ensures { OnOk result (account.new ≡ noted account.old
        (params_marks (option_map (many_shown param_shown) list.now))) }
{
    match list {
        None => Ok(()),
        Some(many) => many_params(many, account),
    }
}
