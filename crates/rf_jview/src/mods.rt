#![tactic(auto, using(crate::proofs::Walks::plain_walks, std::proofs::lemmas::Grind::common_steps))]

ghost use Rattle.std.specs.Prelude.{◌≡◌, OnOk, option_map, Some};
ghost use Rattle.std.specs.List.{flat_map};
ghost use Rattle.rf_jtree.specs.NameShown.{mod_shown, mods_shown, strs_shown, toks_shown};
ghost use Rattle.rf_jtree.specs.NameTrees.{tok_yield, pair_yield, option_yield, many_yield, mod_yield, strs_yield, mods_yield};
ghost use Rattle.rf_jview.specs.Accounts.{noted};
ghost use Rattle.rf_jview.specs.MarkWords.{plains};
ghost use Rattle.rf_jview.specs.NameMarks.{mods_marks};

use crate::Account;
use crate::accounts::plain;
use rf_jtree::{Many, Mod, Strs, Tok};
use rf_text::{List, Memory};

/// A token, if it stands, at which nothing stands.
pub fn optional_tok(tok: &Option<Tok>, account: &mut Account) -> Result<(), Memory>
    ensures { OnOk result
        (account.new ≡ noted account.old (plains (option_yield tok_yield tok.now))) }
{
    match tok {
        None => Ok(()),
        Some(_tok) => plain(account),
    }
}

/// Two tokens, if they stand, at which nothing stands.
pub fn optional_pair(pair: &Option<(Tok, Tok)>, account: &mut Account) -> Result<(), Memory>
    ensures { OnOk result
        (account.new ≡ noted account.old (plains (option_yield pair_yield pair.now))) }
{
    match pair {
        None => Ok(()),
        Some(_pair) => {
            plain(account)?;
            plain(account)
        }
    }
}

/// Tokens at which nothing stands.
pub fn toks(toks: &List<Tok>, account: &mut Account) -> Result<(), Memory>
    ensures { OnOk result (account.new ≡ noted account.old (plains toks.now)) }
{
    for _tok in toks.as_slice() {
        plain(account)?;
    }
    Ok(())
}

fn many_toks(many: &Many<Tok>, account: &mut Account) -> Result<(), Memory>
    ensures { OnOk result
        (account.new ≡ noted account.old (plains (many_yield tok_yield (toks_shown many.now)))) }
{
    plain(account)?;
    for _item in many.rest.as_slice() {
        plain(account)?;
        plain(account)?;
    }
    Ok(())
}

fn optional_toks(many: &Option<Many<Tok>>, account: &mut Account) -> Result<(), Memory>
    ensures { OnOk result (account.new ≡ noted account.old
        (plains (option_yield (many_yield tok_yield) (option_map toks_shown many.now)))) }
{
    match many {
        None => Ok(()),
        Some(many) => many_toks(many, account),
    }
}

fn strs(strs: &Strs, account: &mut Account) -> Result<(), Memory>
    ensures { OnOk result
        (account.new ≡ noted account.old (plains (strs_yield (strs_shown strs.now)))) }
{
    match strs {
        Strs::One(_tok) => plain(account),
        Strs::Braced {
            left: _left,
            list,
            right: _right,
        } => {
            plain(account)?;
            optional_toks(list, account)?;
            plain(account)
        }
    }
}

fn modifier(one: &Mod, account: &mut Account) -> Result<(), Memory>
    ensures { OnOk result
        (account.new ≡ noted account.old (plains (mod_yield (mod_shown one.now)))) }
{
    match one {
        Mod::Word(_tok) => plain(account),
        Mod::Mark {
            at: _at,
            id: _id,
            parens,
        } => {
            plain(account)?;
            plain(account)?;
            optional_pair(parens, account)
        }
        Mod::Suppress {
            at: _at,
            id: _id,
            left: _left,
            strs: texts,
            right: _right,
        } => {
            plain(account)?;
            plain(account)?;
            plain(account)?;
            strs(texts, account)?;
            plain(account)
        }
    }
}

/// Modifiers.
pub fn modifiers(mods: &List<Mod>, account: &mut Account) -> Result<(), Memory>
    ensures { OnOk result (account.new ≡ noted account.old (mods_marks (mods_shown mods.now))) }
{
    for one in mods.as_slice() {
        modifier(one, account)?;
    }
    Ok(())
}
