ghost use Rattle.std.specs.Prelude.{drop};
ghost use Rattle.rf_jtree.specs.DeclShown.{body_shown, ret_shown, member_shown};
ghost use Rattle.rf_jtree.specs.DeclTrees.{body_depth, member_depth};
ghost use Rattle.rf_jtree.specs.NameShown.{mods_shown};
ghost use Rattle.rf_jexpr.specs.Gives.{GivesTree};
ghost use Rattle.rf_jdecl.specs.MemberReads.{body, method, void_method};

use crate::heads::{params, some_names};
use rf_jexpr::{Found, ParseErr, Want, is_at, take};
use rf_jtree::keyword_names::{THROWS, VOID};
use rf_jtree::operator_names::SEMICOLON;
use rf_jtree::{Body, Member, Mod, Ret, Tok};
use rf_text::List;
use std::alloc::Global;

/// The body of a method, or `;` in its place (JLS 8.4.7).
#[tactic(auto, unfolding(crate::specs::MemberReads::body, crate::specs::MemberReads::no_body, crate::specs::MemberReads::block_body, rf_jexpr::specs::Reads::and_then))]
fn body(alloc: Global, t: &[Tok], at: usize, room: u32) -> Result<Found<Body>, ParseErr>
    ensures { GivesTree body_shown body_depth room t.now at result (body room (drop at t.now)) }
{
    if is_at(t, at, Want::Op(SEMICOLON)) {
        let semi = take(alloc, t, at, Want::Op(SEMICOLON))?;
        return Ok(Found {
            tree: Body::Semi(semi.item),
            end: semi.end,
            depth: 0,
        });
    }
    let block = rf_jstmt::body(alloc, t, at, room)?;
    Ok(Found {
        tree: Body::Block(block.tree),
        end: block.end,
        depth: block.depth,
    })
}

/// A method, behind its modifiers and its result (JLS 8.4, 9.4).
#[tactic(auto, unfolding(crate::specs::MemberReads::method, rf_jexpr::specs::Reads::and_then))]
pub(crate) fn method(
    alloc: Global,
    t: &[Tok],
    at: usize,
    room: u32,
    mods: List<Mod>,
    ret: Ret,
) -> Result<Found<Member>, ParseErr>
    ensures { GivesTree member_shown member_depth room t.now at result
        (method room (mods_shown mods) (ret_shown ret) (drop at t.now)) }
{
    let id = take(alloc, t, at, Want::Ident)?;
    let list = params(alloc, t, id.end)?;
    let thrown = some_names(alloc, t, list.end, THROWS)?;
    let end = body(alloc, t, thrown.end, room)?;
    let tree = Member::Method {
        mods,
        result: ret,
        id: id.item,
        params: list.item,
        throws: thrown.item,
        body: end.tree,
    };
    Ok(Found {
        tree,
        end: end.end,
        depth: end.depth,
    })
}

/// A method with no result, behind its modifiers (JLS 8.4.5).
#[tactic(auto, unfolding(crate::specs::MemberReads::void_method, rf_jexpr::specs::Reads::and_then))]
pub(crate) fn void_method(
    alloc: Global,
    t: &[Tok],
    at: usize,
    room: u32,
    mods: List<Mod>,
) -> Result<Found<Member>, ParseErr>
    ensures { GivesTree member_shown member_depth room t.now at result
        (void_method room (mods_shown mods) (drop at t.now)) }
{
    let word = take(alloc, t, at, Want::Key(VOID))?;
    method(alloc, t, word.end, room, mods, Ret::Void(word.item))
}
