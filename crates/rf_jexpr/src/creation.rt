ghost use Rattle.std.specs.Prelude.{◌≡◌, ◌≤◌, ◌<◌, ◌+◌, ◌^◌, drop, length, map, Some, IfOk};
ghost use Rattle.rf_jtree.specs.ExprShown.{sizes_tree};
ghost use Rattle.rf_jtree.specs.ExprTrees.{NewArray, expr_depth};
ghost use Rattle.rf_jtree.specs.NameShown.{base_shown};
ghost use Rattle.rf_jtree.specs.NameTrees.{list_depth};
ghost use Rattle.rf_jexpr.specs.Descent.{parsers};
ghost use Rattle.rf_jexpr.specs.Gives.{GivesTree, IsFound};
ghost use Rattle.rf_jmake.specs.ExprMade.{boxed_shown, size_shown};
ghost use Rattle.rf_jexpr.specs.Made.{size_depth};
ghost use Rattle.rf_jexpr.specs.NameReads.{dims};
ghost use Rattle.rf_jexpr.specs.PartReads.{sized};
ghost use Rattle.rf_jexpr.specs.PrimaryReads.{new_class, new_filled, new_array, creation};
ghost use Rattle.rf_jexpr.specs.Reads.{and_then, many};

use crate::ParseErr;
use crate::cursor::{Want, is_at, take};
use crate::found::Found;
use crate::names::{dims, type_base};
use crate::parts::{args, braces, sizes};
use rf_jmake::exprs::{array_of, filled_of, object_of};
use rf_jtree::keyword_names::NEW;
use rf_jtree::operator_names::LEFT_PAREN;
use rf_jtree::{Expr, Tok, TypeBase};
use rf_text::{List, Memory};
use std::alloc::Global;

// What `new` makes. In each, `room` is what is left for the parts.

/// `(..)` behind `new C` (JLS 15.9).
#[cycle(expr)]
#[tactic(auto, unfolding(crate::specs::PrimaryReads::new_class, crate::specs::Reads::and_then))]
fn new_class(
    alloc: Global,
    t: &[Tok],
    at: usize,
    room: u32,
    word: Tok,
    base: TypeBase,
) -> Result<Found<Box<Expr>>, ParseErr>
    ensures { GivesTree boxed_shown expr_depth (room + 1) t.now at result
        (new_class (parsers room) word (base_shown base) (drop at t.now)) }
{
    match base {
        TypeBase::Prim(_) => Err(ParseErr::NoTree),
        TypeBase::Named(class) => {
            let list = args(alloc, t, at, room)?;
            let tree = object_of(alloc, word, class, list.tree)?;
            Ok(Found {
                tree,
                end: list.end,
                depth: list.depth + 1,
            })
        }
    }
}

/// `[]..{..}` behind `new T` (JLS 15.10).
#[cycle(expr)]
#[tactic(auto, unfolding(crate::specs::PrimaryReads::new_filled, crate::specs::PrimaryReads::has_brackets, crate::specs::Reads::and_then, crate::specs::Reads::when))]
fn new_filled(
    alloc: Global,
    t: &[Tok],
    at: usize,
    room: u32,
    word: Tok,
    base: TypeBase,
) -> Result<Found<Box<Expr>>, ParseErr>
    requires { at ≤ length t.now }
    ensures { GivesTree boxed_shown expr_depth (room + 1) t.now at result
        (new_filled (parsers room) word (base_shown base) (drop at t.now)) }
{
    let bracket_pairs = dims(alloc, t, at)?;
    if bracket_pairs.item.list.is_empty() {
        return Err(ParseErr::NoTree);
    }
    let items = braces(alloc, t, bracket_pairs.end, room)?;
    let tree = filled_of(alloc, word, base, bracket_pairs.item, items.tree)?;
    Ok(Found {
        tree,
        end: items.end,
        depth: items.depth + 1,
    })
}

/// A new array, behind its sizes (JLS 15.10).
#[tactic(auto, unfolding(crate::specs::Reads::and_then))]
fn new_sized(
    alloc: Global,
    t: &[Tok],
    word: Tok,
    base: TypeBase,
    sizes: Found<List<(Tok, Expr, Tok)>>,
) -> Result<Found<Box<Expr>>, Memory>
    requires known { sizes.depth ≡ list_depth size_depth (map size_shown sizes.tree) }
    requires small { sizes.depth < 2 ^ 62 }
    requires within { sizes.end ≤ length t.now }
    ensures { IfOk result (IsFound boxed_shown expr_depth (sizes.depth + 1) t.now sizes.end
        (and_then (dims (drop sizes.end t.now))
        (λ bracket_pairs. Some (
          NewArray word (base_shown base) (sizes_tree (map size_shown sizes.tree))
              bracket_pairs.0,
          bracket_pairs.1,
        )))) }
{
    let bracket_pairs = dims(alloc, t, sizes.end)?;
    let tree = array_of(alloc, word, base, sizes.tree, bracket_pairs.item)?;
    Ok(Found {
        tree,
        end: bracket_pairs.end,
        depth: sizes.depth + 1,
    })
}

/// What stands behind `new T` of an array (JLS 15.10).
#[cycle(expr)]
#[tactic(auto, unfolding(crate::specs::PrimaryReads::new_array, crate::specs::Reads::and_then))]
fn new_array(
    alloc: Global,
    t: &[Tok],
    at: usize,
    room: u32,
    word: Tok,
    base: TypeBase,
) -> Result<Found<Box<Expr>>, ParseErr>
    requires { at ≤ length t.now }
    ensures { GivesTree boxed_shown expr_depth (room + 1) t.now at result
        (and_then (many (sized (parsers room)) (drop at t.now))
        (λ sizes. new_array (parsers room) word (base_shown base) sizes.0 sizes.1)) }
{
    let found = sizes(alloc, t, at, room)?;
    if found.tree.is_empty() {
        return new_filled(alloc, t, found.end, room, word, base);
    }
    let array = new_sized(alloc, t, word, base, found)?;
    Ok(array)
}

/// A new object or a new array (JLS 15.9, 15.10).
#[cycle(expr)]
#[tactic(auto, unfolding(crate::specs::PrimaryReads::creation, crate::specs::Reads::and_then))]
pub(crate) fn creation(
    alloc: Global,
    t: &[Tok],
    at: usize,
    room: u32,
) -> Result<Found<Box<Expr>>, ParseErr>
    ensures { GivesTree boxed_shown expr_depth (room + 1) t.now at result
        (creation (parsers room) (drop at t.now)) }
{
    let word = take(alloc, t, at, Want::Key(NEW))?;
    let base = type_base(alloc, t, word.end)?;
    if is_at(t, base.end, Want::Op(LEFT_PAREN)) {
        return new_class(alloc, t, base.end, room, word.item, base.item);
    }
    new_array(alloc, t, base.end, room, word.item, base.item)
}
