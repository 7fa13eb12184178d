ghost use Rattle.std.specs.Prelude.{◌≡◌, ◌↔◌, IsTrue, IfSome, option_map};
ghost use Rattle.rf_jtree.specs.DeclFits.{is_word_of, has_word_of, IsNeitherPrivateNorProtected, NamesFit, ParamFits, ParamsFit};
ghost use Rattle.rf_jtree.specs.DeclShown.{names_shown, more_names_shown, param_shown, more_params_shown, params_shown};
ghost use Rattle.rf_jtree.specs.Kinds.{IsOp};
ghost use Rattle.rf_jtree.specs.NameFits.{EachFits, ManyFit, NameFits};
ghost use Rattle.rf_jtree.specs.NameShown.{many_shown, name_shown, mod_shown, mods_shown};

use crate::name_checks::{are_parens, dims_fit, name_fits, type_fits};
use crate::variable_checks::variable_mods_fit;
use rf_jfit::{is_ident, is_key, is_key_of, is_op};
use rf_jtree::keyword_names::{PRIVATE, PROTECTED};
use rf_jtree::operator_names::COMMA;
use rf_jtree::{Kw, Many, Mod, Name, Param, Params, Tok};
use rf_text::List;

fn is_word_of(modifier: &Mod, words: &[Kw]) -> bool
    ensures { result ≡ is_word_of words.now (mod_shown modifier.now) }
{
    match modifier {
        Mod::Word(tok) => is_key_of(tok, words),
        Mod::Mark { .. } | Mod::Suppress { .. } => false,
    }
}

/// Whether one of the words is among the modifiers.
pub(crate) fn has_word_of(mods: &[Mod], words: &[Kw]) -> bool
    ensures { result ≡ has_word_of words.now (mods_shown mods.now) }
{
    match mods {
        [] => false,
        [one, more @ ..] => is_word_of(one, words) || has_word_of(more, words),
    }
}

/// Whether neither `private` nor `protected` is among the modifiers.
pub(crate) fn is_visible(mods: &List<Mod>) -> bool
    ensures { IsTrue result ↔ IsNeitherPrivateNorProtected (mods_shown mods.now) }
{
    !has_word_of(mods.as_slice(), &[PRIVATE, PROTECTED])
}

fn more_names_fit(rest: &[(Tok, Name)]) -> bool
    ensures { IsTrue result ↔ EachFits (λ item. IsOp COMMA item.0 × NameFits item.1)
        (more_names_shown rest.now) }
{
    match rest {
        [] => true,
        [item, more @ ..] => is_op(&item.0, COMMA) && name_fits(&item.1) && more_names_fit(more),
    }
}

fn many_names_fit(names: &Many<Name>) -> bool
    ensures { IsTrue result ↔ ManyFit NameFits COMMA (many_shown name_shown names.now) }
{
    name_fits(&names.first) && more_names_fit(names.rest.as_slice())
}

/// Whether names behind a keyword fit, if there are any.
pub(crate) fn names_fit(key: Kw, names: &Option<(Tok, Many<Name>)>) -> bool
    ensures { IsTrue result ↔ IfSome (option_map names_shown names.now) (NamesFit key) }
{
    match names {
        None => true,
        Some(part) => is_key(&part.0, key) && many_names_fit(&part.1),
    }
}

fn param_fits(param: &Param) -> bool
    ensures { IsTrue result ↔ ParamFits (param_shown param.now) }
{
    variable_mods_fit(&param.mods)
        && type_fits(&param.used_type)
        && is_ident(&param.id)
        && dims_fit(&param.dims)
}

fn more_params_fit(rest: &[(Tok, Param)]) -> bool
    ensures { IsTrue result ↔ EachFits (λ item. IsOp COMMA item.0 × ParamFits item.1)
        (more_params_shown rest.now) }
{
    match rest {
        [] => true,
        [item, more @ ..] => is_op(&item.0, COMMA) && param_fits(&item.1) && more_params_fit(more),
    }
}

fn many_params_fit(params: &Many<Param>) -> bool
    ensures { IsTrue result ↔ ManyFit ParamFits COMMA (many_shown param_shown params.now) }
{
    param_fits(&params.first) && more_params_fit(params.rest.as_slice())
}

fn param_list_fits(list: &Option<Many<Param>>) -> bool
    ensures { IsTrue result ↔ IfSome (option_map (many_shown param_shown) list.now)
        (ManyFit ParamFits COMMA) }
{
    match list {
        None => true,
        Some(params) => many_params_fit(params),
    }
}

/// Whether parameters in parentheses fit.
pub(crate) fn params_fit(params: &Params) -> bool
    ensures { IsTrue result ↔ ParamsFit (params_shown params.now) }
{
    are_parens(&params.left, &params.right) && param_list_fits(&params.list)
}
