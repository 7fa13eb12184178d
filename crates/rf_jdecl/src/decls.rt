ghost use Rattle.std.specs.Prelude.{◌≤◌, drop, length};
ghost use Rattle.rf_jtree.specs.DeclShown.{decl_shown};
ghost use Rattle.rf_jexpr.specs.Gives.{Gives, GivesTree};
ghost use Rattle.rf_jexpr.specs.Reads.{token};
ghost use Rattle.rf_jdecl.specs.DeclMade.{decl_depth};
ghost use Rattle.rf_jdecl.specs.UnitReads.{begins_type, any_decl, type_decl};

use crate::decl_tests::decl_fits;
use crate::heads::{fitting_mods, some_names};
use crate::members::members;
use rf_jexpr::{Found, ParseErr, Taken, Want, is_at, take};
use rf_jtree::keyword_names::{CLASS, EXTENDS, IMPLEMENTS, INTERFACE};
use rf_jtree::operator_names::{LEFT_BRACE, RIGHT_BRACE};
use rf_jtree::{Tok, TypeDecl};
use std::alloc::Global;

/// `class` or `interface`.
#[tactic(auto, using(crate::proofs::CodeLemmas::words))]
fn type_word(alloc: Global, t: &[Tok], at: usize) -> Result<Taken<Tok>, ParseErr>
    ensures { Gives (λ tok. tok) t.now at result (token begins_type (drop at t.now)) }
{
    if is_at(t, at, Want::Key(CLASS)) {
        return take(alloc, t, at, Want::Key(CLASS));
    }
    take(alloc, t, at, Want::Key(INTERFACE))
}

/// A class or an interface, whatever it asks of its parts (JLS 8.1, 9.1).
#[tactic(auto, unfolding(crate::specs::UnitReads::any_decl, rf_jexpr::specs::Reads::and_then))]
fn any_decl(alloc: Global, t: &[Tok], at: usize, room: u32) -> Result<Found<TypeDecl>, ParseErr>
    requires { at ≤ length t.now }
    ensures { GivesTree decl_shown decl_depth room t.now at result (any_decl room (drop at t.now)) }
{
    let mods = fitting_mods(alloc, t, at)?;
    let word = type_word(alloc, t, mods.end)?;
    let id = take(alloc, t, word.end, Want::Ident)?;
    let extends = some_names(alloc, t, id.end, EXTENDS)?;
    let implements = some_names(alloc, t, extends.end, IMPLEMENTS)?;
    let left = take(alloc, t, implements.end, Want::Op(LEFT_BRACE))?;
    let list = members(alloc, t, left.end, room)?;
    let right = take(alloc, t, list.end, Want::Op(RIGHT_BRACE))?;
    let tree = TypeDecl {
        mods: mods.item,
        word: word.item,
        id: id.item,
        extends: extends.item,
        implements: implements.item,
        left: left.item,
        members: list.tree,
        right: right.item,
    };
    Ok(Found {
        tree,
        end: right.end,
        depth: list.depth,
    })
}

/// A class or an interface (JLS 8.1, 9.1).
#[tactic(auto, unfolding(crate::specs::UnitReads::type_decl, rf_jexpr::specs::Reads::and_then, rf_jexpr::specs::Reads::when))]
pub(crate) fn type_decl(
    alloc: Global,
    t: &[Tok],
    at: usize,
    room: u32,
) -> Result<Found<TypeDecl>, ParseErr>
    requires { at ≤ length t.now }
    ensures { GivesTree decl_shown decl_depth room t.now at result
        (type_decl room (drop at t.now)) }
{
    let decl = any_decl(alloc, t, at, room)?;
    if !decl_fits(&decl.tree) {
        return Err(ParseErr::NoTree);
    }
    Ok(decl)
}
