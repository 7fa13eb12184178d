ghost use Rattle.std.specs.Prelude.{◌≤◌, ◌<◌, drop, length, IfOk};
ghost use Rattle.rf_jtree.specs.DeclShown.{member_shown, members_shown};
ghost use Rattle.rf_jtree.specs.DeclTrees.{member_depth};
ghost use Rattle.rf_jtree.specs.NameShown.{mods_shown};
ghost use Rattle.rf_jtree.specs.NameTrees.{list_depth};
ghost use Rattle.rf_jexpr.specs.Gives.{GivesTree, IsFound};
ghost use Rattle.rf_jdecl.specs.MemberReads.{stray, initializer, typed, behind_mods, modified, member, members};

use crate::ctors::ctor;
use crate::fields::field;
use crate::fronts::{begins_callable, begins_initializer};
use crate::heads::fitting_mods;
use crate::methods::{method, void_method};
use rf_jexpr::{Found, ParseErr, Want, attempt, grown, is_at, take, take_if, type_use};
use rf_jstmt::body;
use rf_jtree::keyword_names::{STATIC, VOID};
use rf_jtree::operator_names::SEMICOLON;
use rf_jtree::{Member, Mod, Ret, Tok};
use rf_text::{List, Memory};
use std::alloc::Global;

/// A stray `;` (JLS 8.1.6, 9.1.4).
#[tactic(auto, unfolding(crate::specs::MemberReads::stray, rf_jexpr::specs::Reads::and_then))]
fn stray(alloc: Global, t: &[Tok], at: usize, room: u32) -> Result<Found<Member>, ParseErr>
    ensures { GivesTree member_shown member_depth room t.now at result (stray (drop at t.now)) }
{
    let semi = take(alloc, t, at, Want::Op(SEMICOLON))?;
    Ok(Found {
        tree: Member::Semi(semi.item),
        end: semi.end,
        depth: 0,
    })
}

/// An initializer, with `static` or without (JLS 8.6, 8.7).
#[tactic(auto, unfolding(crate::specs::MemberReads::initializer, rf_jexpr::specs::Reads::and_then))]
fn initializer(alloc: Global, t: &[Tok], at: usize, room: u32) -> Result<Found<Member>, ParseErr>
    requires { at ≤ length t.now }
    ensures { GivesTree member_shown member_depth room t.now at result
        (initializer room (drop at t.now)) }
{
    let word = take_if(alloc, t, at, Want::Key(STATIC))?;
    let block = body(alloc, t, word.end, room)?;
    let tree = Member::Init {
        word: word.item,
        body: block.tree,
    };
    Ok(Found {
        tree,
        end: block.end,
        depth: block.depth,
    })
}

/// A method or a field, behind its modifiers (JLS 8.3, 8.4).
#[tactic(auto, unfolding(crate::specs::MemberReads::typed, rf_jexpr::specs::Reads::and_then))]
fn typed(
    alloc: Global,
    t: &[Tok],
    at: usize,
    room: u32,
    mods: List<Mod>,
) -> Result<Found<Member>, ParseErr>
    ensures { GivesTree member_shown member_depth room t.now at result
        (typed room (mods_shown mods) (drop at t.now)) }
{
    let used_type = type_use(alloc, t, at)?;
    if begins_callable(t, used_type.end) {
        return method(
            alloc,
            t,
            used_type.end,
            room,
            mods,
            Ret::Typed(used_type.item),
        );
    }
    field(alloc, t, used_type.end, room, mods, used_type.item)
}

/// A constructor, a method or a field, behind its modifiers.
#[tactic(auto, unfolding(crate::specs::MemberReads::behind_mods))]
fn behind_mods(
    alloc: Global,
    t: &[Tok],
    at: usize,
    room: u32,
    mods: List<Mod>,
) -> Result<Found<Member>, ParseErr>
    ensures { GivesTree member_shown member_depth room t.now at result
        (behind_mods room (mods_shown mods) (drop at t.now)) }
{
    if begins_callable(t, at) {
        return ctor(alloc, t, at, room, mods);
    }
    if is_at(t, at, Want::Key(VOID)) {
        return void_method(alloc, t, at, room, mods);
    }
    typed(alloc, t, at, room, mods)
}

/// A constructor, a method or a field (JLS 8.3, 8.4, 8.8).
#[tactic(auto, unfolding(crate::specs::MemberReads::modified, rf_jexpr::specs::Reads::and_then))]
fn modified(alloc: Global, t: &[Tok], at: usize, room: u32) -> Result<Found<Member>, ParseErr>
    requires { at ≤ length t.now }
    ensures { GivesTree member_shown member_depth room t.now at result
        (modified room (drop at t.now)) }
{
    let found = fitting_mods(alloc, t, at)?;
    behind_mods(alloc, t, found.end, room, found.item)
}

/// A member, an initializer or a stray `;` (JLS 8.1.6, 9.1.4).
#[tactic(auto, unfolding(crate::specs::MemberReads::member))]
fn member(alloc: Global, t: &[Tok], at: usize, room: u32) -> Result<Found<Member>, ParseErr>
    requires { at ≤ length t.now }
    ensures { GivesTree member_shown member_depth room t.now at result
        (member room (drop at t.now)) }
{
    if is_at(t, at, Want::Op(SEMICOLON)) {
        return stray(alloc, t, at, room);
    }
    if begins_initializer(t, at) {
        return initializer(alloc, t, at, room);
    }
    modified(alloc, t, at, room)
}

/// The same, and that it has a token at least.
fn next_member(alloc: Global, t: &[Tok], at: usize, room: u32) -> Result<Found<Member>, ParseErr>
    requires { at ≤ length t.now }
    ensures gives { GivesTree member_shown member_depth room t.now at result
        (member room (drop at t.now)) }
    ensures forth { IfOk result (λ x. at < x.end) }
{
    member(alloc, t, at, room)
}

/// Members, as many as stand there (JLS 8.1.6, 9.1.4).
pub(crate) fn members(
    alloc: Global,
    t: &[Tok],
    at: usize,
    room: u32,
) -> Result<Found<List<Member>>, Memory>
    requires { at ≤ length t.now }
    ensures { IfOk result (IsFound members_shown (list_depth member_depth) room t.now at
        (members room (drop at t.now))) }
{
    let mut list = Found {
        tree: List::new(alloc),
        end: at,
        depth: 0,
    };
    'items: while let Some(next) = attempt(next_member(alloc, t, list.end, room))? {
        list = grown(list, next)?;
    }
    Ok(list)
}
