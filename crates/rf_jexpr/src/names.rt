ghost use Rattle.std.specs.Prelude.{◌≡◌, ◌≤◌, ◌<◌, drop, length, IfOk};
ghost use Rattle.rf_jtree.specs.NameShown.{name_shown, base_shown, type_shown};
ghost use Rattle.rf_jtree.specs.declared.operator_names.TheConstants.{DOT};
ghost use Rattle.rf_jexpr.specs.Gives.{Gives, IsTaken};
ghost use Rattle.rf_jexpr.specs.NameReads.{name, brackets, dims, type_base, type_use};
ghost use Rattle.rf_jexpr.specs.Reads.{is_op, is_ident, token, many, behind};

use crate::ParseErr;
use crate::cursor::{Want, is_at, take};
use crate::found::{Taken, attempt};
use rf_jtree::operator_names::{DOT, LEFT_BRACKET, RIGHT_BRACKET};
use rf_jtree::{Dims, Dotted, Name, Tok, TypeBase, TypeUse};
use rf_text::{List, Memory};
use std::alloc::Global;

/// A dot and an identifier.
#[tactic(auto, unfolding(crate::specs::Reads::behind, crate::specs::Reads::and_then))]
fn next_id(alloc: Global, t: &[Tok], at: usize) -> Result<Taken<(Tok, Tok)>, ParseErr>
    ensures gives { Gives (λ item. item) t.now at result
        (behind (is_op DOT) (token is_ident) (drop at t.now)) }
    ensures forth { IfOk result (λ x. at < x.end) }
{
    let dot = take(alloc, t, at, Want::Op(DOT))?;
    let id = take(alloc, t, dot.end, Want::Ident)?;
    Ok(Taken {
        item: (dot.item, id.item),
        end: id.end,
    })
}

/// Dots and identifiers, as many as stand there.
#[tactic(auto, using(crate::proofs::TurnLemmas::turns))]
fn more_ids(alloc: Global, t: &[Tok], at: usize) -> Result<Taken<List<(Tok, Tok)>>, Memory>
    requires { at ≤ length t.now }
    ensures { IfOk result (IsTaken (λ item. item) t.now at
        (many (behind (is_op DOT) (token is_ident)) (drop at t.now))) }
{
    let mut ids = List::new(alloc);
    let mut end = at;
    while let Some(next) = attempt(next_id(alloc, t, end))? {
        ids.push(next.item)?;
        end = next.end;
    }
    Ok(Taken { item: ids, end })
}

/// A dotted name as long as it goes (JLS 6.2).
#[tactic(auto, unfolding(crate::specs::NameReads::name, crate::specs::Reads::separated, crate::specs::Reads::and_then))]
pub(crate) fn name(alloc: Global, t: &[Tok], at: usize) -> Result<Taken<Name>, ParseErr>
    ensures { Gives name_shown t.now at result (name (drop at t.now)) }
{
    let first = take(alloc, t, at, Want::Ident)?;
    let rest = more_ids(alloc, t, first.end)?;
    let ids = Dotted {
        first: first.item,
        rest: rest.item,
    };
    Ok(Taken {
        item: Name { ids },
        end: rest.end,
    })
}

/// `[` and `]`.
#[tactic(auto, unfolding(crate::specs::NameReads::brackets, crate::specs::Reads::and_then))]
fn brackets(alloc: Global, t: &[Tok], at: usize) -> Result<Taken<(Tok, Tok)>, ParseErr>
    ensures gives { Gives (λ item. item) t.now at result (brackets (drop at t.now)) }
    ensures forth { IfOk result (λ x. at < x.end) }
{
    let left = take(alloc, t, at, Want::Op(LEFT_BRACKET))?;
    let right = take(alloc, t, left.end, Want::Op(RIGHT_BRACKET))?;
    Ok(Taken {
        item: (left.item, right.item),
        end: right.end,
    })
}

/// Pairs of brackets, as many as stand there.
#[tactic(auto, using(crate::proofs::TurnLemmas::turns), unfolding(crate::specs::NameReads::dims, crate::specs::Reads::and_then))]
pub fn dims(alloc: Global, t: &[Tok], at: usize) -> Result<Taken<Dims>, Memory>
    requires { at ≤ length t.now }
    ensures { IfOk result (IsTaken (λ found. found) t.now at (dims (drop at t.now))) }
{
    let mut list = List::new(alloc);
    let mut end = at;
    while let Some(pair) = attempt(brackets(alloc, t, end))? {
        list.push(pair.item)?;
        end = pair.end;
    }
    Ok(Taken {
        item: Dims { list },
        end,
    })
}

/// A primitive type or a named one (JLS 4.2, 4.3).
#[tactic(auto, unfolding(crate::specs::NameReads::type_base, crate::specs::NameReads::primitive, crate::specs::NameReads::named_type, crate::specs::Reads::and_then))]
pub(crate) fn type_base(alloc: Global, t: &[Tok], at: usize) -> Result<Taken<TypeBase>, ParseErr>
    ensures { Gives base_shown t.now at result (type_base (drop at t.now)) }
{
    if is_at(t, at, Want::Primitive) {
        let word = take(alloc, t, at, Want::Primitive)?;
        return Ok(Taken {
            item: TypeBase::Prim(word.item),
            end: word.end,
        });
    }
    let found = name(alloc, t, at)?;
    Ok(Taken {
        item: TypeBase::Named(found.item),
        end: found.end,
    })
}

/// The use of a type (JLS 4.1).
#[tactic(auto, unfolding(crate::specs::NameReads::type_use, crate::specs::Reads::and_then))]
pub(crate) fn type_use(alloc: Global, t: &[Tok], at: usize) -> Result<Taken<TypeUse>, ParseErr>
    ensures { Gives type_shown t.now at result (type_use (drop at t.now)) }
{
    let base = type_base(alloc, t, at)?;
    let bracket_pairs = dims(alloc, t, base.end)?;
    let used_type = TypeUse {
        base: base.item,
        dims: bracket_pairs.item,
    };
    Ok(Taken {
        item: used_type,
        end: bracket_pairs.end,
    })
}
