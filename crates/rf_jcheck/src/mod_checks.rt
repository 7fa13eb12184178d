ghost use Rattle.std.specs.Prelude.{◌↔◌, IsTrue, IfSome, option_map};
ghost use Rattle.rf_jtree.specs.Kinds.{IsOp, IsStr};
ghost use Rattle.rf_jtree.specs.NameFits.{EachFits, ManyFit, ParensFit, StrsFit, IsSuppress, ModFits, ModsFit};
ghost use Rattle.rf_jtree.specs.NameShown.{toks_shown, strs_shown, mod_shown, mods_shown};

use crate::name_checks::{are_braces, are_parens};
use rf_jfit::{
    has_one_access_at_most, is_key_of, is_mark_name, is_op, is_str, is_suppress_name,
    none_stands_twice,
};
use rf_jtree::keyword_names::MODIFIERS;
use rf_jtree::operator_names::{AT, COMMA};
use rf_jtree::{Many, Mod, Strs, Tok};
use rf_text::List;

fn more_strs_fit(rest: &[(Tok, Tok)]) -> bool
    ensures { IsTrue result ↔ EachFits (λ item. IsOp COMMA item.0 × IsStr item.1) rest.now }
{
    match rest {
        [] => true,
        [item, more @ ..] => is_op(&item.0, COMMA) && is_str(&item.1) && more_strs_fit(more),
    }
}

fn strs_fit(strs: &Strs) -> bool
    ensures { IsTrue result ↔ StrsFit (strs_shown strs.now) }
{
    match strs {
        Strs::One(tok) => is_str(tok),
        Strs::Braced { left, list, right } => are_braces(left, right) && many_strs_fit(list),
    }
}

fn many_strs_fit(list: &Option<Many<Tok>>) -> bool
    ensures { IsTrue result ↔ IfSome (option_map toks_shown list.now) (ManyFit IsStr COMMA) }
{
    match list {
        None => true,
        Some(many) => is_str(&many.first) && more_strs_fit(many.rest.as_slice()),
    }
}

fn parens_fit(parens: &Option<(Tok, Tok)>) -> bool
    ensures { IsTrue result ↔ IfSome parens.now ParensFit }
{
    match parens {
        None => true,
        Some((left, right)) => are_parens(left, right),
    }
}

fn is_suppress(at: &Tok, id: &Tok, left: &Tok, right: &Tok) -> bool
    ensures { IsTrue result ↔ IsSuppress at.now id.now left.now right.now }
{
    is_op(at, AT) && is_suppress_name(id) && are_parens(left, right)
}

/// Whether a modifier fits.
pub fn mod_fits(one: &Mod) -> bool
    ensures { IsTrue result ↔ ModFits (mod_shown one.now) }
{
    match one {
        Mod::Word(tok) => is_key_of(tok, &MODIFIERS),
        Mod::Mark { at, id, parens } => is_op(at, AT) && is_mark_name(id) && parens_fit(parens),
        Mod::Suppress {
            at,
            id,
            left,
            strs,
            right,
        } => is_suppress(at, id, left, right) && strs_fit(strs),
    }
}

fn each_mod_fits(mods: &[Mod]) -> bool
    ensures { IsTrue result ↔ EachFits ModFits (mods_shown mods.now) }
{
    match mods {
        [] => true,
        [one, more @ ..] => mod_fits(one) && each_mod_fits(more),
    }
}

/// Whether modifiers before a declaration fit, whatever the declaration is.
pub fn mods_fit(mods: &List<Mod>) -> bool
    ensures { IsTrue result ↔ ModsFit (mods_shown mods.now) }
{
    let mods = mods.as_slice();
    each_mod_fits(mods) && none_stands_twice(mods) && has_one_access_at_most(mods)
}
