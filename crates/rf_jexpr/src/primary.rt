ghost use Rattle.std.specs.Prelude.{◌≡◌, ◌≤◌, ◌<◌, ◌+◌, ◌^◌, drop, length, IfOk};
ghost use Rattle.rf_jtree.specs.ExprTrees.{expr_depth};
ghost use Rattle.rf_jtree.specs.NameShown.{name_shown};
ghost use Rattle.rf_jexpr.specs.Descent.{parsers};
ghost use Rattle.rf_jexpr.specs.Gives.{GivesTree, IsFound};
ghost use Rattle.rf_jmake.specs.ExprMade.{boxed_shown, super_args_found};
ghost use Rattle.rf_jexpr.specs.Made.{IsKnown, super_args_found_depth};
ghost use Rattle.rf_jexpr.specs.PartReads.{args};
ghost use Rattle.rf_jexpr.specs.PrimaryReads.{literal, this_word, super_member, named_call, named, first_part, member, field, item, suffix, primary};
ghost use Rattle.rf_jexpr.specs.Reads.{optional};
ghost use Rattle.rf_jmake.specs.Continuations.{named_called, suffixed};

use crate::ParseErr;
use crate::continuations::suffixed;
use crate::creation::creation;
use crate::cursor::{Want, is_at, take};
use crate::found::{Found, Taken, attempt, deeper};
use crate::names::name;
use crate::parts::{args, bracketed, paren};
use crate::shapes::{takes_field, takes_index};
use rf_jmake::continuations::{Suffix, depth_called_on, named_called};
use rf_jmake::exprs::{literal_of, name_of, super_of, this_of};
use rf_jtree::keyword_names::{NEW, SUPER, THIS};
use rf_jtree::operator_names::{DOT, LEFT_PAREN};
use rf_jtree::{Args, Expr, Name, Tok};
use rf_text::Memory;
use std::alloc::Global;

#[tactic(auto, unfolding(crate::specs::PrimaryReads::literal, crate::specs::Reads::and_then))]
fn literal(alloc: Global, t: &[Tok], at: usize) -> Result<Found<Box<Expr>>, ParseErr>
    ensures { GivesTree boxed_shown expr_depth 1 t.now at result (literal (drop at t.now)) }
{
    let tok = take(alloc, t, at, Want::Literal)?;
    let tree = literal_of(alloc, tok.item)?;
    Ok(Found {
        tree,
        end: tok.end,
        depth: 1,
    })
}

#[tactic(auto, unfolding(crate::specs::PrimaryReads::this_word, crate::specs::Reads::and_then))]
fn this_word(alloc: Global, t: &[Tok], at: usize) -> Result<Found<Box<Expr>>, ParseErr>
    ensures { GivesTree boxed_shown expr_depth 1 t.now at result (this_word (drop at t.now)) }
{
    let word = take(alloc, t, at, Want::Key(THIS))?;
    let tree = this_of(alloc, word.item)?;
    Ok(Found {
        tree,
        end: word.end,
        depth: 1,
    })
}

// In what follows `room` is what is left for the parts.

/// What stands behind `super.x`: the arguments of a call, where they fit.
#[cycle(expr)]
#[tactic(auto, unfolding(crate::specs::Reads::optional, crate::specs::Reads::and_then, crate::specs::Reads::or_else))]
fn super_args(
    alloc: Global,
    t: &[Tok],
    at: usize,
    room: u32,
) -> Result<Found<Option<Box<Args>>>, Memory>
    requires { at ≤ length t.now }
    ensures { IfOk result (IsFound super_args_found super_args_found_depth room t.now at
        (optional (args (parsers room)) (drop at t.now))) }
{
    match attempt(args(alloc, t, at, room))? {
        Some(list) => Ok(list.there()),
        None => Ok(Found::left_out(at)),
    }
}

/// `super.x` or `super.m(..)` (JLS 15.11.2, 15.12).
#[cycle(expr)]
#[tactic(auto, unfolding(crate::specs::PrimaryReads::super_member, crate::specs::Reads::and_then))]
fn super_member(
    alloc: Global,
    t: &[Tok],
    at: usize,
    room: u32,
) -> Result<Found<Box<Expr>>, ParseErr>
    ensures { GivesTree boxed_shown expr_depth (room + 1) t.now at result
        (super_member (parsers room) (drop at t.now)) }
{
    let word = take(alloc, t, at, Want::Key(SUPER))?;
    let dot = take(alloc, t, word.end, Want::Op(DOT))?;
    let id = take(alloc, t, dot.end, Want::Ident)?;
    let list = super_args(alloc, t, id.end, room)?;
    let tree = super_of(alloc, word.item, dot.item, id.item, list.tree)?;
    Ok(Found {
        tree,
        end: list.end,
        depth: list.depth + 1,
    })
}

/// Arguments behind a name, the last identifier of which is the method (JLS 15.12).
#[cycle(expr)]
#[tactic(auto, unfolding(crate::specs::PrimaryReads::named_call, crate::specs::Reads::and_then, crate::specs::Reads::when))]
fn named_call(
    alloc: Global,
    t: &[Tok],
    at: usize,
    room: u32,
    name: &Name,
) -> Result<Found<Box<Args>>, ParseErr>
    ensures { GivesTree (named_called (name_shown name.now)) expr_depth (room + 1) t.now at result
        (named_call room (parsers room) (name_shown name.now) (drop at t.now)) }
{
    let on_depth = depth_called_on(name);
    if (room as usize) < on_depth {
        return Err(ParseErr::NoTree);
    }
    let list = args(alloc, t, at, room)?;
    Ok(Found {
        tree: list.tree,
        end: list.end,
        depth: deeper(on_depth, list.depth) + 1,
    })
}

/// A name as long as it goes, and a call of it where arguments follow (JLS 6.5, 15.12).
#[cycle(expr)]
#[tactic(auto, unfolding(crate::specs::PrimaryReads::named, crate::specs::Reads::and_then, crate::specs::Reads::or_else))]
fn named(alloc: Global, t: &[Tok], at: usize, room: u32) -> Result<Found<Box<Expr>>, ParseErr>
    ensures { GivesTree boxed_shown expr_depth (room + 1) t.now at result
        (named room (parsers room) (drop at t.now)) }
{
    let name = name(alloc, t, at)?;
    let Some(continuation) = attempt(named_call(alloc, t, name.end, room, &name.item))? else {
        let tree = name_of(alloc, name.item)?;
        return Ok(Found {
            tree,
            end: name.end,
            depth: 1,
        });
    };
    let tree = named_called(alloc, name.item, continuation.tree)?;
    Ok(Found {
        tree,
        end: continuation.end,
        depth: continuation.depth,
    })
}

/// The first part of a primary expression (JLS 15.8).
#[cycle(expr)]
#[tactic(auto, unfolding(crate::specs::PrimaryReads::first_part))]
fn first_part(alloc: Global, t: &[Tok], at: usize, room: u32) -> Result<Found<Box<Expr>>, ParseErr>
    ensures { GivesTree boxed_shown expr_depth (room + 1) t.now at result
        (first_part room (parsers room) (drop at t.now)) }
{
    if is_at(t, at, Want::Literal) {
        return literal(alloc, t, at);
    }
    if is_at(t, at, Want::Key(THIS)) {
        return this_word(alloc, t, at);
    }
    if is_at(t, at, Want::Op(LEFT_PAREN)) {
        return paren(alloc, t, at, room);
    }
    if is_at(t, at, Want::Key(SUPER)) {
        return super_member(alloc, t, at, room);
    }
    if is_at(t, at, Want::Key(NEW)) {
        return creation(alloc, t, at, room);
    }
    named(alloc, t, at, room)
}

/// `.x` behind an expression that is no name (JLS 15.11).
#[tactic(auto, unfolding(crate::specs::PrimaryReads::field, crate::specs::Reads::when))]
fn field(
    t: &[Tok],
    on: &Found<Box<Expr>>,
    dot: Tok,
    id: Taken<Tok>,
) -> Result<Found<Suffix>, ParseErr>
    requires known { IsKnown on.now }
    requires small { on.now.depth < 2 ^ 62 }
    requires within { id.end ≤ length t.now }
    ensures gives { GivesTree (suffixed (boxed_shown on.now.tree)) expr_depth (on.now.depth + 1)
        t.now id.end result (field (boxed_shown on.now.tree) dot id.item (drop id.end t.now)) }
    ensures deeper { IfOk result (λ x. on.now.depth < x.depth) }
{
    if !takes_field(&on.tree) {
        return Err(ParseErr::NoTree);
    }
    Ok(Found {
        tree: Suffix::Field(dot, id.item),
        end: id.end,
        depth: on.depth + 1,
    })
}

/// `.m(..)` or `.x` behind an expression (JLS 15.11, 15.12).
#[cycle(expr)]
#[tactic(auto, unfolding(crate::specs::PrimaryReads::member, crate::specs::PrimaryReads::member_call, crate::specs::Reads::and_then, crate::specs::Reads::or_else))]
fn member(
    alloc: Global,
    t: &[Tok],
    room: u32,
    on: &Found<Box<Expr>>,
) -> Result<Found<Suffix>, ParseErr>
    requires known { IsKnown on.now }
    requires shallow { on.now.depth ≤ room }
    ensures gives { GivesTree (suffixed (boxed_shown on.now.tree)) expr_depth (room + 1) t.now
        on.now.end result (member (parsers room) (boxed_shown on.now.tree)
        (drop on.now.end t.now)) }
    ensures deeper { IfOk result (λ x. on.now.depth < x.depth) }
{
    let dot = take(alloc, t, on.end, Want::Op(DOT))?;
    let id = take(alloc, t, dot.end, Want::Ident)?;
    let Some(list) = attempt(args(alloc, t, id.end, room))? else {
        return field(t, on, dot.item, id);
    };
    Ok(Found {
        tree: Suffix::Call(dot.item, id.item, list.tree),
        end: list.end,
        depth: deeper(on.depth, list.depth) + 1,
    })
}

/// `[..]` behind an expression that is no new array (JLS 15.10, 15.13).
#[cycle(expr)]
#[tactic(auto, unfolding(crate::specs::PrimaryReads::item, crate::specs::Reads::and_then, crate::specs::Reads::when))]
fn item(
    alloc: Global,
    t: &[Tok],
    room: u32,
    on: &Found<Box<Expr>>,
) -> Result<Found<Suffix>, ParseErr>
    requires known { IsKnown on.now }
    requires shallow { on.now.depth ≤ room }
    ensures gives { GivesTree (suffixed (boxed_shown on.now.tree)) expr_depth (room + 1) t.now
        on.now.end result (item (parsers room) (boxed_shown on.now.tree) (drop on.now.end t.now)) }
    ensures deeper { IfOk result (λ x. on.now.depth < x.depth) }
{
    if !takes_index(&on.tree) {
        return Err(ParseErr::NoTree);
    }
    let index = bracketed(alloc, t, on.end, room)?;
    let (left, operand, right) = index.tree;
    Ok(Found {
        tree: Suffix::Item(left, operand, right),
        end: index.end,
        depth: deeper(on.depth, index.depth) + 1,
    })
}

/// What follows a primary expression, where the room is enough for it.
#[cycle(expr)]
#[tactic(auto, unfolding(crate::specs::PrimaryReads::suffix, crate::specs::Reads::when))]
fn suffix(
    alloc: Global,
    t: &[Tok],
    room: u32,
    on: &Found<Box<Expr>>,
) -> Result<Found<Suffix>, ParseErr>
    requires { IsKnown on.now }
    ensures gives { GivesTree (suffixed (boxed_shown on.now.tree)) expr_depth (room + 1) t.now
        on.now.end result (suffix room (parsers room) (boxed_shown on.now.tree)
        (drop on.now.end t.now)) }
    ensures deeper { IfOk result (λ x. on.now.depth < x.depth) }
{
    if (room as usize) < on.depth {
        return Err(ParseErr::NoTree);
    }
    if is_at(t, on.end, Want::Op(DOT)) {
        return member(alloc, t, room, on);
    }
    item(alloc, t, room, on)
}

/// A primary expression (JLS 15.8).
#[cycle(expr)]
#[tactic(auto, unfolding(crate::specs::PrimaryReads::primary, crate::specs::Reads::and_then))]
pub(crate) fn primary(
    alloc: Global,
    t: &[Tok],
    at: usize,
    room: u32,
) -> Result<Found<Box<Expr>>, ParseErr>
    ensures { GivesTree boxed_shown expr_depth (room + 1) t.now at result
        (primary room (parsers room) (drop at t.now)) }
{
    let mut found = first_part(alloc, t, at, room)?;
    'suffixes: while let Some(continuation) = attempt(suffix(alloc, t, room, &found))? {
        found = suffixed(alloc, found, continuation)?;
    }
    Ok(found)
}
