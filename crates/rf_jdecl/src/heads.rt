ghost use Rattle.std.specs.Prelude.{◌≤◌, ◌<◌, drop, length, option_map, IfOk};
ghost use Rattle.rf_jtree.specs.DeclShown.{more_names_shown, names_shown, param_shown, more_params_shown, params_shown};
ghost use Rattle.rf_jtree.specs.NameShown.{many_shown, name_shown, mods_shown};
ghost use Rattle.rf_jtree.specs.declared.operator_names.TheConstants.{COMMA};
ghost use Rattle.rf_jexpr.specs.Gives.{Gives, IsTaken};
ghost use Rattle.rf_jexpr.specs.NameReads.{name};
ghost use Rattle.rf_jexpr.specs.Reads.{is_op, many, behind, separated, optional};
ghost use Rattle.rf_jdecl.specs.DeclMade.{name_item_shown, param_item_shown};
ghost use Rattle.rf_jdecl.specs.HeadReads.{fitting_mods, names_behind, param, params};

use rf_jexpr::{ParseErr, Taken, Want, attempt, dims, many_of, name, take, type_use};
use rf_jmods::{mods, mods_fit, variable_mods};
use rf_jtree::operator_names::{COMMA, LEFT_PAREN, RIGHT_PAREN};
use rf_jtree::{Kw, Many, Mod, Name, Param, Params, Tok};
use rf_text::{List, Memory};
use std::alloc::Global;

/// The modifiers of a member or a type (JLS 8.1.1, 8.3.1, 8.4.3).
#[tactic(auto, unfolding(crate::specs::HeadReads::fitting_mods, rf_jexpr::specs::Reads::and_then, rf_jexpr::specs::Reads::when))]
pub(crate) fn fitting_mods(
    alloc: Global,
    t: &[Tok],
    at: usize,
) -> Result<Taken<List<Mod>>, ParseErr>
    requires { at ≤ length t.now }
    ensures { Gives mods_shown t.now at result (fitting_mods (drop at t.now)) }
{
    let found = mods(alloc, t, at)?;
    if !mods_fit(found.item.as_slice()) {
        return Err(ParseErr::NoTree);
    }
    Ok(found)
}

/// A comma and a name.
#[tactic(auto, unfolding(rf_jexpr::specs::Reads::behind, rf_jexpr::specs::Reads::and_then))]
fn next_name(alloc: Global, t: &[Tok], at: usize) -> Result<Taken<(Tok, Name)>, ParseErr>
    ensures gives { Gives name_item_shown t.now at result
        (behind (is_op COMMA) name (drop at t.now)) }
    ensures forth { IfOk result (λ x. at < x.end) }
{
    let comma = take(alloc, t, at, Want::Op(COMMA))?;
    let found = name(alloc, t, comma.end)?;
    Ok(Taken {
        item: (comma.item, found.item),
        end: found.end,
    })
}

/// Commas and names, as many as stand there.
#[tactic(auto, using(crate::proofs::CodeLemmas::shown_turns))]
fn more_names(alloc: Global, t: &[Tok], at: usize) -> Result<Taken<List<(Tok, Name)>>, Memory>
    requires { at ≤ length t.now }
    ensures { IfOk result (IsTaken more_names_shown t.now at
        (many (behind (is_op COMMA) name) (drop at t.now))) }
{
    let mut list = List::new(alloc);
    let mut end = at;
    'items: while let Some(next) = attempt(next_name(alloc, t, end))? {
        list.push(next.item)?;
        end = next.end;
    }
    Ok(Taken { item: list, end })
}

/// Names with commas between them, one at least.
#[tactic(auto, unfolding(rf_jexpr::specs::Reads::separated, rf_jexpr::specs::Reads::and_then))]
fn names(alloc: Global, t: &[Tok], at: usize) -> Result<Taken<Many<Name>>, ParseErr>
    ensures { Gives (many_shown name_shown) t.now at result (separated COMMA name (drop at t.now)) }
{
    let first = name(alloc, t, at)?;
    let rest = more_names(alloc, t, first.end)?;
    Ok(Taken {
        item: many_of(alloc, first.item, rest.item)?,
        end: rest.end,
    })
}

/// Names behind this keyword (JLS 8.1.5, 8.4.6, 9.1.3).
#[tactic(auto, unfolding(crate::specs::HeadReads::names_behind, rf_jexpr::specs::Reads::behind, rf_jexpr::specs::Reads::and_then))]
fn names_behind(
    alloc: Global,
    t: &[Tok],
    at: usize,
    key: Kw,
) -> Result<Taken<(Tok, Many<Name>)>, ParseErr>
    ensures { Gives names_shown t.now at result (names_behind key (drop at t.now)) }
{
    let word = take(alloc, t, at, Want::Key(key))?;
    let list = names(alloc, t, word.end)?;
    Ok(Taken {
        item: (word.item, list.item),
        end: list.end,
    })
}

/// Names behind this keyword, if it stands there.
#[tactic(auto, unfolding(rf_jexpr::specs::Reads::optional, rf_jexpr::specs::Reads::and_then, rf_jexpr::specs::Reads::or_else))]
pub(crate) fn some_names(
    alloc: Global,
    t: &[Tok],
    at: usize,
    key: Kw,
) -> Result<Taken<Option<(Tok, Many<Name>)>>, Memory>
    requires { at ≤ length t.now }
    ensures { IfOk result (IsTaken (option_map names_shown) t.now at
        (optional (names_behind key) (drop at t.now))) }
{
    match attempt(names_behind(alloc, t, at, key))? {
        Some(found) => Ok(found.there()),
        None => Ok(Taken::left_out(at)),
    }
}

/// A parameter (JLS 8.4.1).
#[tactic(auto, unfolding(crate::specs::HeadReads::param, rf_jexpr::specs::Reads::and_then))]
fn param(alloc: Global, t: &[Tok], at: usize) -> Result<Taken<Param>, ParseErr>
    requires { at ≤ length t.now }
    ensures { Gives param_shown t.now at result (param (drop at t.now)) }
{
    let found = variable_mods(alloc, t, at)?;
    let used_type = type_use(alloc, t, found.end)?;
    let id = take(alloc, t, used_type.end, Want::Ident)?;
    let bracket_pairs = dims(alloc, t, id.end)?;
    let item = Param {
        mods: found.item,
        used_type: used_type.item,
        id: id.item,
        dims: bracket_pairs.item,
    };
    Ok(Taken {
        item,
        end: bracket_pairs.end,
    })
}

/// A comma and a parameter.
#[tactic(auto, unfolding(rf_jexpr::specs::Reads::behind, rf_jexpr::specs::Reads::and_then))]
fn next_param(alloc: Global, t: &[Tok], at: usize) -> Result<Taken<(Tok, Param)>, ParseErr>
    ensures gives { Gives param_item_shown t.now at result
        (behind (is_op COMMA) param (drop at t.now)) }
    ensures forth { IfOk result (λ x. at < x.end) }
{
    let comma = take(alloc, t, at, Want::Op(COMMA))?;
    let found = param(alloc, t, comma.end)?;
    Ok(Taken {
        item: (comma.item, found.item),
        end: found.end,
    })
}

/// Commas and parameters, as many as stand there.
#[tactic(auto, using(crate::proofs::CodeLemmas::shown_turns))]
fn more_params(alloc: Global, t: &[Tok], at: usize) -> Result<Taken<List<(Tok, Param)>>, Memory>
    requires { at ≤ length t.now }
    ensures { IfOk result (IsTaken more_params_shown t.now at
        (many (behind (is_op COMMA) param) (drop at t.now))) }
{
    let mut list = List::new(alloc);
    let mut end = at;
    'items: while let Some(next) = attempt(next_param(alloc, t, end))? {
        list.push(next.item)?;
        end = next.end;
    }
    Ok(Taken { item: list, end })
}

/// Parameters with commas between them, one at least.
#[tactic(auto, unfolding(rf_jexpr::specs::Reads::separated, rf_jexpr::specs::Reads::and_then))]
fn many_params(alloc: Global, t: &[Tok], at: usize) -> Result<Taken<Many<Param>>, ParseErr>
    requires { at ≤ length t.now }
    ensures { Gives (many_shown param_shown) t.now at result
        (separated COMMA param (drop at t.now)) }
{
    let first = param(alloc, t, at)?;
    let rest = more_params(alloc, t, first.end)?;
    Ok(Taken {
        item: many_of(alloc, first.item, rest.item)?,
        end: rest.end,
    })
}

/// Parameters with commas between them, if any stand there.
#[tactic(auto, unfolding(rf_jexpr::specs::Reads::optional, rf_jexpr::specs::Reads::and_then, rf_jexpr::specs::Reads::or_else))]
fn some_params(alloc: Global, t: &[Tok], at: usize) -> Result<Taken<Option<Many<Param>>>, Memory>
    requires { at ≤ length t.now }
    ensures { IfOk result (IsTaken (option_map (many_shown param_shown)) t.now at
        (optional (separated COMMA param) (drop at t.now))) }
{
    match attempt(many_params(alloc, t, at))? {
        Some(found) => Ok(found.there()),
        None => Ok(Taken::left_out(at)),
    }
}

/// Parameters in parentheses (JLS 8.4.1).
#[tactic(auto, unfolding(crate::specs::HeadReads::params, rf_jexpr::specs::Reads::and_then))]
pub(crate) fn params(alloc: Global, t: &[Tok], at: usize) -> Result<Taken<Params>, ParseErr>
    ensures { Gives params_shown t.now at result (params (drop at t.now)) }
{
    let left = take(alloc, t, at, Want::Op(LEFT_PAREN))?;
    let list = some_params(alloc, t, left.end)?;
    let right = take(alloc, t, list.end, Want::Op(RIGHT_PAREN))?;
    let item = Params {
        left: left.item,
        list: list.item,
        right: right.item,
    };
    Ok(Taken {
        item,
        end: right.end,
    })
}
