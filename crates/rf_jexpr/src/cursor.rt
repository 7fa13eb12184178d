ghost use Rattle.std.specs.Prelude.{◌≡◌, ◌+◌, ◌≤◌, ◌<◌, drop, length, slice_get, IfOk, OnSome};
ghost use Rattle.std.specs.Option.{option_copied};
ghost use Rattle.rf_jexpr.specs.Gives.{Gives, IsTaken, passes};
ghost use Rattle.rf_jexpr.specs.Reads.{begins, optional, token};

use crate::ParseErr;
use crate::found::{Taken, attempt};
use rf_jfit::{is_ident, is_key, is_key_of, is_literal, is_op, is_op_of};
use rf_jtree::keyword_names::PRIMITIVES;
use rf_jtree::operator_names::{ASSIGNMENTS, PREFIXES, SUFFIXES};
use rf_jtree::{Kw, Op, Tok};
use rf_text::Memory;
use std::alloc::Global;

/// What a token may be asked to be.
#[derive(Clone, Copy, Debug)]
pub enum Want {
    /// This separator or operator.
    Op(Op),
    /// This keyword.
    Key(Kw),
    Ident,
    Literal,
    /// A primitive type.
    Primitive,
    /// An operator that stands before its operand.
    Prefix,
    /// An operator that stands behind its operand.
    Suffix,
    /// An assignment operator.
    Assignment,
}

/// Whether the token is what is wanted.
pub(crate) fn passes(want: Want, tok: &Tok) -> bool
    ensures { result ≡ passes want tok.now }
{
    match want {
        Want::Op(op) => is_op(tok, op),
        Want::Key(word) => is_key(tok, word),
        Want::Ident => is_ident(tok),
        Want::Literal => is_literal(tok),
        Want::Primitive => is_key_of(tok, &PRIMITIVES),
        Want::Prefix => is_op_of(tok, &PREFIXES),
        Want::Suffix => is_op_of(tok, &SUFFIXES),
        Want::Assignment => is_op_of(tok, &ASSIGNMENTS),
    }
}

/// The token at this place, where the tokens go on so far.
pub fn tok_at(t: &[Tok], at: usize) -> Option<&Tok>
    ensures value { option_copied result ≡ slice_get t.now at }
    ensures within { OnSome result (at < length t.now) }
{
    t.get(at)
}

/// Whether the token at this place is there and what is wanted.
#[tactic(auto, using(crate::proofs::CursorLemmas::places))]
pub fn is_at(t: &[Tok], at: usize, want: Want) -> bool
    ensures { result ≡ begins (passes want) (drop at t.now) }
{
    match tok_at(t, at) {
        Some(tok) => passes(want, tok),
        None => false,
    }
}

/// The token at this place, where it is what is wanted.
#[tactic(auto, using(crate::proofs::CursorLemmas::places))]
pub fn take(alloc: Global, t: &[Tok], at: usize, want: Want) -> Result<Taken<Tok>, ParseErr>
    ensures gives { Gives (λ tok. tok) t.now at result (token (passes want) (drop at t.now)) }
    ensures end { IfOk result (λ x. x.end ≡ at + 1) }
{
    let Some(tok) = tok_at(t, at) else {
        return Err(ParseErr::NoTree);
    };
    if !passes(want, tok) {
        return Err(ParseErr::NoTree);
    }
    let item = tok.copy(alloc)?;
    Ok(Taken { item, end: at + 1 })
}

/// The token at this place, if it is what is wanted: one that may be left out.
#[tactic(auto, unfolding(crate::specs::Reads::optional, crate::specs::Reads::and_then, crate::specs::Reads::or_else))]
pub fn take_if(
    alloc: Global,
    t: &[Tok],
    at: usize,
    want: Want,
) -> Result<Taken<Option<Tok>>, Memory>
    requires { at ≤ length t.now }
    ensures { IfOk result (IsTaken (λ tok. tok) t.now at
        (optional (token (passes want)) (drop at t.now))) }
{
    match attempt(take(alloc, t, at, want))? {
        Some(tok) => Ok(tok.there()),
        None => Ok(Taken::left_out(at)),
    }
}
