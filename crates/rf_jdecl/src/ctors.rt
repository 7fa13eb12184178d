ghost use Rattle.std.specs.Prelude.{◌≡◌, ◌≤◌, drop, length, option_map, IfOk};
ghost use Rattle.std.specs.List.{list_all};
ghost use Rattle.rf_jtree.specs.DeclShown.{ctor_call_shown, member_shown};
ghost use Rattle.rf_jtree.specs.DeclTrees.{member_depth};
ghost use Rattle.rf_jtree.specs.NameShown.{mod_shown, mods_shown};
ghost use Rattle.rf_jexpr.specs.Gives.{Gives, GivesTree, IsFound};
ghost use Rattle.rf_jexpr.specs.Reads.{is_ident, when, token, optional};
ghost use Rattle.rf_jdecl.specs.DeclMade.{call_depth, some_call_depth};
ghost use Rattle.rf_jdecl.specs.MemberReads.{calls_ctor, ctor_call, is_ctor_mod, ctor};

use crate::heads::{params, some_names};
use rf_jexpr::{Found, ParseErr, Taken, Want, args, attempt, deeper, is_at, take};
use rf_jfit::is_key_of;
use rf_jstmt::stmts;
use rf_jtree::keyword_names::{ACCESSES, SUPER, THIS, THROWS};
use rf_jtree::operator_names::{LEFT_BRACE, RIGHT_BRACE, SEMICOLON};
use rf_jtree::{CtorCall, Member, Mod, Tok};
use rf_text::{List, Memory};
use std::alloc::Global;

/// `this` or `super`.
#[tactic(auto, using(crate::proofs::CodeLemmas::words))]
fn ctor_word(alloc: Global, t: &[Tok], at: usize) -> Result<Taken<Tok>, ParseErr>
    ensures { Gives (λ tok. tok) t.now at result (token calls_ctor (drop at t.now)) }
{
    if is_at(t, at, Want::Key(THIS)) {
        return take(alloc, t, at, Want::Key(THIS));
    }
    take(alloc, t, at, Want::Key(SUPER))
}

/// `this(..);` or `super(..);` (JLS 8.8.7.1).
#[tactic(auto, unfolding(crate::specs::MemberReads::ctor_call, rf_jexpr::specs::Reads::and_then))]
fn ctor_call(alloc: Global, t: &[Tok], at: usize, room: u32) -> Result<Found<CtorCall>, ParseErr>
    ensures { GivesTree ctor_call_shown call_depth room t.now at result
        (ctor_call room (drop at t.now)) }
{
    let word = ctor_word(alloc, t, at)?;
    let list = args(alloc, t, word.end, room)?;
    let semi = take(alloc, t, list.end, Want::Op(SEMICOLON))?;
    let tree = CtorCall {
        word: word.item,
        args: list.tree,
        semi: semi.item,
    };
    Ok(Found {
        tree,
        end: semi.end,
        depth: list.depth,
    })
}

/// The call of another constructor, if it stands there.
#[tactic(auto, unfolding(rf_jexpr::specs::Reads::optional, rf_jexpr::specs::Reads::and_then, rf_jexpr::specs::Reads::or_else))]
fn some_call(
    alloc: Global,
    t: &[Tok],
    at: usize,
    room: u32,
) -> Result<Found<Option<CtorCall>>, Memory>
    requires { at ≤ length t.now }
    ensures { IfOk result (IsFound (option_map ctor_call_shown) some_call_depth room t.now at
        (optional (ctor_call room) (drop at t.now))) }
{
    match attempt(ctor_call(alloc, t, at, room))? {
        Some(found) => Ok(found.there()),
        None => Ok(Found::left_out(at)),
    }
}

/// Whether a constructor may have it: an access word or an annotation (JLS 8.8.3).
#[tactic(auto, unfolding(crate::specs::MemberReads::is_ctor_mod))]
fn is_ctor_mod(one: &Mod) -> bool
    ensures { result ≡ is_ctor_mod (mod_shown one.now) }
{
    match one {
        Mod::Word(tok) => is_key_of(tok, &ACCESSES),
        Mod::Mark { .. } | Mod::Suppress { .. } => true,
    }
}

#[tactic(auto, using(crate::proofs::CodeLemmas::each_shown))]
fn are_ctor_mods(mods: &[Mod]) -> bool
    ensures { result ≡ list_all is_ctor_mod (mods_shown mods.now) }
{
    mods.iter().all(|one| is_ctor_mod(one))
}

/// The name of a constructor, where its modifiers may stand (JLS 8.8.3).
#[tactic(auto, unfolding(rf_jexpr::specs::Reads::when))]
fn ctor_id(alloc: Global, t: &[Tok], at: usize, mods: &[Mod]) -> Result<Taken<Tok>, ParseErr>
    ensures { Gives (λ tok. tok) t.now at result
        (when (list_all is_ctor_mod (mods_shown mods.now)) (token is_ident (drop at t.now))) }
{
    if !are_ctor_mods(mods) {
        return Err(ParseErr::NoTree);
    }
    take(alloc, t, at, Want::Ident)
}

/// A constructor, behind its modifiers (JLS 8.8).
#[tactic(auto, unfolding(crate::specs::MemberReads::ctor, rf_jexpr::specs::Reads::and_then))]
pub(crate) fn ctor(
    alloc: Global,
    t: &[Tok],
    at: usize,
    room: u32,
    mods: List<Mod>,
) -> Result<Found<Member>, ParseErr>
    ensures { GivesTree member_shown member_depth room t.now at result
        (ctor room (mods_shown mods) (drop at t.now)) }
{
    let id = ctor_id(alloc, t, at, mods.as_slice())?;
    let list = params(alloc, t, id.end)?;
    let thrown = some_names(alloc, t, list.end, THROWS)?;
    let left = take(alloc, t, thrown.end, Want::Op(LEFT_BRACE))?;
    let call = some_call(alloc, t, left.end, room)?;
    let body = stmts(alloc, t, call.end, room)?;
    let right = take(alloc, t, body.end, Want::Op(RIGHT_BRACE))?;
    let tree = Member::Ctor {
        mods,
        id: id.item,
        params: list.item,
        throws: thrown.item,
        left: left.item,
        call: call.tree,
        body: body.tree,
        right: right.item,
    };
    Ok(Found {
        tree,
        end: right.end,
        depth: deeper(call.depth, body.depth),
    })
}
