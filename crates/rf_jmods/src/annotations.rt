ghost use Rattle.std.specs.Prelude.{◌≡◌, ◌≤◌, ◌<◌, drop, length, option_map, IfOk};
ghost use Rattle.rf_jtree.specs.NameShown.{toks_shown, strs_shown, mod_shown};
ghost use Rattle.rf_jtree.specs.Kinds.{is_key_of};
ghost use Rattle.rf_jtree.specs.declared.operator_names.TheConstants.{COMMA};
ghost use Rattle.rf_jtree.specs.declared.keyword_names.TheConstants.{MODIFIERS};
ghost use Rattle.rf_jexpr.specs.Gives.{Gives, IsTaken};
ghost use Rattle.rf_jexpr.specs.Reads.{is_op, token, optional, many, behind, separated};
ghost use Rattle.rf_jmods.specs.ModReads.{is_str, is_mark_name, is_suppress_name, goes_on_with, parens, one_str, braced_strs, strs, suppress, mark, word, modifier};

use crate::mod_tests::{is_mark_name, is_string, is_suppress_name};
use rf_jexpr::{ParseErr, Taken, Want, attempt, is_at, many_of, pair, take, tok_at};
use rf_jfit::is_key_of;
use rf_jtree::keyword_names::MODIFIERS;
use rf_jtree::operator_names::{AT, COMMA, LEFT_BRACE, LEFT_PAREN, RIGHT_BRACE, RIGHT_PAREN};
use rf_jtree::{Many, Mod, Strs, Tok, TokKind};
use rf_text::{List, Memory};
use std::alloc::Global;

/// A string (JLS 3.10.5).
#[tactic(auto, using(crate::proofs::ModLemmas::narrows), unfolding(rf_jexpr::specs::Reads::and_then, rf_jexpr::specs::Reads::when))]
fn str_tok(alloc: Global, t: &[Tok], at: usize) -> Result<Taken<Tok>, ParseErr>
    ensures { Gives (λ tok. tok) t.now at result (token is_str (drop at t.now)) }
{
    let found = take(alloc, t, at, Want::Literal)?;
    if !is_string(&found.item) {
        return Err(ParseErr::NoTree);
    }
    Ok(found)
}

/// The name of an annotation that stands alone (JLS 9.6.3).
#[tactic(auto, using(crate::proofs::ModLemmas::narrows), unfolding(rf_jexpr::specs::Reads::and_then, rf_jexpr::specs::Reads::when))]
fn mark_name(alloc: Global, t: &[Tok], at: usize) -> Result<Taken<Tok>, ParseErr>
    ensures { Gives (λ tok. tok) t.now at result (token is_mark_name (drop at t.now)) }
{
    let found = take(alloc, t, at, Want::Ident)?;
    if !is_mark_name(&found.item) {
        return Err(ParseErr::NoTree);
    }
    Ok(found)
}

/// The name of the annotation that has strings (JLS 9.6.3.5).
#[tactic(auto, using(crate::proofs::ModLemmas::narrows), unfolding(rf_jexpr::specs::Reads::and_then, rf_jexpr::specs::Reads::when))]
fn suppress_name(alloc: Global, t: &[Tok], at: usize) -> Result<Taken<Tok>, ParseErr>
    ensures { Gives (λ tok. tok) t.now at result (token is_suppress_name (drop at t.now)) }
{
    let found = take(alloc, t, at, Want::Ident)?;
    if !is_suppress_name(&found.item) {
        return Err(ParseErr::NoTree);
    }
    Ok(found)
}

/// A word that is a modifier (JLS 8.1.1, 8.3.1, 8.4.3).
fn word_tok(alloc: Global, t: &[Tok], at: usize) -> Result<Taken<Tok>, ParseErr>
    ensures gives { Gives (λ tok. tok) t.now at result
        (token (is_key_of MODIFIERS) (drop at t.now)) }
    ensures forth { IfOk result (λ x. at < x.end) }
{
    let Some(tok) = tok_at(t, at) else {
        return Err(ParseErr::NoTree);
    };
    if !is_key_of(tok, &MODIFIERS) {
        return Err(ParseErr::NoTree);
    }
    match tok.kind {
        TokKind::Key(word) => take(alloc, t, at, Want::Key(word)),
        _ => Err(ParseErr::NoTree),
    }
}

/// `(` and `)`.
#[tactic(auto, unfolding(crate::specs::ModReads::parens, rf_jexpr::specs::Reads::and_then))]
fn parens(alloc: Global, t: &[Tok], at: usize) -> Result<Taken<(Tok, Tok)>, ParseErr>
    ensures { Gives (λ pair. pair) t.now at result (parens (drop at t.now)) }
{
    let left = take(alloc, t, at, Want::Op(LEFT_PAREN))?;
    let right = take(alloc, t, left.end, Want::Op(RIGHT_PAREN))?;
    Ok(Taken {
        item: (left.item, right.item),
        end: right.end,
    })
}

/// `(` and `)`, if they stand there.
#[tactic(auto, unfolding(rf_jexpr::specs::Reads::optional, rf_jexpr::specs::Reads::and_then, rf_jexpr::specs::Reads::or_else))]
fn some_parens(alloc: Global, t: &[Tok], at: usize) -> Result<Taken<Option<(Tok, Tok)>>, Memory>
    requires { at ≤ length t.now }
    ensures { IfOk result (IsTaken (λ pair. pair) t.now at (optional parens (drop at t.now))) }
{
    match attempt(parens(alloc, t, at))? {
        Some(pair) => Ok(pair.there()),
        None => Ok(Taken::left_out(at)),
    }
}

/// A comma and a string.
#[tactic(auto, unfolding(rf_jexpr::specs::Reads::behind, rf_jexpr::specs::Reads::and_then))]
fn next_str(alloc: Global, t: &[Tok], at: usize) -> Result<Taken<(Tok, Tok)>, ParseErr>
    ensures gives { Gives (λ item. item) t.now at result
        (behind (is_op COMMA) (token is_str) (drop at t.now)) }
    ensures forth { IfOk result (λ x. at < x.end) }
{
    let comma = take(alloc, t, at, Want::Op(COMMA))?;
    let item = str_tok(alloc, t, comma.end)?;
    Ok(Taken {
        item: (comma.item, item.item),
        end: item.end,
    })
}

/// Commas and strings, as many as stand there.
#[tactic(auto, using(rf_jexpr::proofs::TurnLemmas::turns))]
fn more_strs(alloc: Global, t: &[Tok], at: usize) -> Result<Taken<List<(Tok, Tok)>>, Memory>
    requires { at ≤ length t.now }
    ensures { IfOk result (IsTaken (λ item. item) t.now at
        (many (behind (is_op COMMA) (token is_str)) (drop at t.now))) }
{
    let mut list = List::new(alloc);
    let mut end = at;
    while let Some(next) = attempt(next_str(alloc, t, end))? {
        list.push(next.item)?;
        end = next.end;
    }
    Ok(Taken { item: list, end })
}

/// Strings with commas between them, if any stand there.
#[tactic(auto, unfolding(rf_jexpr::specs::Reads::optional, rf_jexpr::specs::Reads::separated, rf_jexpr::specs::Reads::and_then, rf_jexpr::specs::Reads::or_else))]
fn some_strs(alloc: Global, t: &[Tok], at: usize) -> Result<Taken<Option<Many<Tok>>>, Memory>
    requires { at ≤ length t.now }
    ensures { IfOk result (IsTaken (option_map toks_shown) t.now at
        (optional (separated COMMA (token is_str)) (drop at t.now))) }
{
    let Some(first) = attempt(str_tok(alloc, t, at))? else {
        return Ok(Taken::left_out(at));
    };
    let rest = more_strs(alloc, t, first.end)?;
    let list = many_of(alloc, first.item, rest.item)?;
    Ok(Taken {
        item: Some(list),
        end: rest.end,
    })
}

/// Strings in braces (JLS 9.7.1).
#[tactic(auto, unfolding(crate::specs::ModReads::braced_strs, rf_jexpr::specs::Reads::and_then))]
fn braced_strs(alloc: Global, t: &[Tok], at: usize) -> Result<Taken<Strs>, ParseErr>
    ensures { Gives strs_shown t.now at result (braced_strs (drop at t.now)) }
{
    let left = take(alloc, t, at, Want::Op(LEFT_BRACE))?;
    let list = some_strs(alloc, t, left.end)?;
    let right = take(alloc, t, list.end, Want::Op(RIGHT_BRACE))?;
    let item = Strs::Braced {
        left: left.item,
        list: list.item,
        right: right.item,
    };
    Ok(Taken {
        item,
        end: right.end,
    })
}

/// Strings, one alone or any number in braces (JLS 9.7.1).
#[tactic(auto, unfolding(crate::specs::ModReads::strs, crate::specs::ModReads::one_str, rf_jexpr::specs::Reads::and_then))]
fn strs(alloc: Global, t: &[Tok], at: usize) -> Result<Taken<Strs>, ParseErr>
    ensures { Gives strs_shown t.now at result (strs (drop at t.now)) }
{
    if is_at(t, at, Want::Op(LEFT_BRACE)) {
        return braced_strs(alloc, t, at);
    }
    let tok = str_tok(alloc, t, at)?;
    Ok(Taken {
        item: Strs::One(tok.item),
        end: tok.end,
    })
}

/// `@SuppressWarnings(..)` (JLS 9.6.3.5).
#[tactic(auto, unfolding(crate::specs::ModReads::suppress, rf_jexpr::specs::Reads::and_then))]
fn suppress(alloc: Global, t: &[Tok], at: usize) -> Result<Taken<Mod>, ParseErr>
    ensures gives { Gives mod_shown t.now at result (suppress (drop at t.now)) }
    ensures forth { IfOk result (λ x. at < x.end) }
{
    let sign = take(alloc, t, at, Want::Op(AT))?;
    let id = pair(suppress_name(alloc, t, sign.end), sign.item)?;
    let left = pair(take(alloc, t, id.end, Want::Op(LEFT_PAREN)), id.item)?;
    let list = pair(strs(alloc, t, left.end), left.item)?;
    let right = pair(take(alloc, t, list.end, Want::Op(RIGHT_PAREN)), list.item)?;
    let ((((first, name), open), values), close) = right.item;
    let item = Mod::Suppress {
        at: first,
        id: name,
        left: open,
        strs: values,
        right: close,
    };
    Ok(Taken {
        item,
        end: right.end,
    })
}

/// `@Override` or `@Deprecated`, with `()` or without (JLS 9.6.3.4, 9.6.3.6).
#[tactic(auto, unfolding(crate::specs::ModReads::mark, rf_jexpr::specs::Reads::and_then))]
fn mark(alloc: Global, t: &[Tok], at: usize) -> Result<Taken<Mod>, ParseErr>
    ensures gives { Gives mod_shown t.now at result (mark (drop at t.now)) }
    ensures forth { IfOk result (λ x. at < x.end) }
{
    let sign = take(alloc, t, at, Want::Op(AT))?;
    let id = mark_name(alloc, t, sign.end)?;
    let pair = some_parens(alloc, t, id.end)?;
    let item = Mod::Mark {
        at: sign.item,
        id: id.item,
        parens: pair.item,
    };
    Ok(Taken {
        item,
        end: pair.end,
    })
}

/// A modifier that is a word (JLS 8.1.1, 8.3.1, 8.4.3).
#[tactic(auto, unfolding(crate::specs::ModReads::word, rf_jexpr::specs::Reads::and_then))]
fn word(alloc: Global, t: &[Tok], at: usize) -> Result<Taken<Mod>, ParseErr>
    ensures gives { Gives mod_shown t.now at result (word (drop at t.now)) }
    ensures forth { IfOk result (λ x. at < x.end) }
{
    let tok = word_tok(alloc, t, at)?;
    Ok(Taken {
        item: Mod::Word(tok.item),
        end: tok.end,
    })
}

/// Whether the second token from this place on is the name of the annotation that has strings.
fn names_suppress(t: &[Tok], at: usize) -> bool
    ensures { result ≡ goes_on_with is_suppress_name (drop at t.now) }
{
    let Some(_first) = tok_at(t, at) else {
        return false;
    };
    match tok_at(t, at + 1) {
        Some(tok) => is_suppress_name(tok),
        None => false,
    }
}

/// A modifier: a word, or an annotation (JLS 8.1.1, 8.3.1, 8.4.3, 9.7).
#[tactic(auto, unfolding(crate::specs::ModReads::modifier))]
pub(crate) fn modifier(alloc: Global, t: &[Tok], at: usize) -> Result<Taken<Mod>, ParseErr>
    ensures gives { Gives mod_shown t.now at result (modifier (drop at t.now)) }
    ensures forth { IfOk result (λ x. at < x.end) }
{
    if !is_at(t, at, Want::Op(AT)) {
        return word(alloc, t, at);
    }
    if names_suppress(t, at) {
        return suppress(alloc, t, at);
    }
    mark(alloc, t, at)
}
