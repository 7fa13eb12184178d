ghost use Rattle.std.specs.Prelude.{◌≡◌, ◌≤◌, ◌<◌, ◌+◌, drop, length, map, IfOk};
ghost use Rattle.rf_jtree.specs.declared.operator_names.TheConstants.{COMMA};
ghost use Rattle.rf_jtree.specs.ExprShown.{args_shown};
ghost use Rattle.rf_jtree.specs.ExprTrees.{expr_depth, args_depth, braces_depth};
ghost use Rattle.rf_jtree.specs.NameTrees.{list_depth};
ghost use Rattle.rf_jexpr.specs.Descent.{parsers};
ghost use Rattle.rf_jexpr.specs.Gives.{GivesTree, IsFound};
ghost use Rattle.rf_jmake.specs.ExprMade.{boxed_shown, boxed_args_shown, boxed_braces_shown, item_shown, init_item_shown, size_shown, exprs_found, inits_found};
ghost use Rattle.rf_jexpr.specs.Made.{bracketed_shown, item_depth, init_item_depth, size_depth, found_depth, inits_found_depth};
ghost use Rattle.rf_jexpr.specs.PartReads.{paren, args, sized, braces};
ghost use Rattle.rf_jexpr.specs.Reads.{is_op, many, behind, separated, optional};

use crate::ParseErr;
use crate::cursor::{Want, take, take_if};
use crate::found::{Found, attempt, deeper, grown};
use crate::top::{expr, init};
use rf_jmake::exprs::{args_of, braces_of, paren_of};
use rf_jtree::operator_names::{
    COMMA, LEFT_BRACE, LEFT_BRACKET, LEFT_PAREN, RIGHT_BRACE, RIGHT_BRACKET, RIGHT_PAREN,
};
use rf_jtree::{Args, Braces, Expr, Init, Many, Tok};
use rf_text::{List, Memory};
use std::alloc::Global;

// The parts of an expression that stand in brackets of their own. In each, `room` is what is left for the parts.

/// An expression in parentheses (JLS 15.8.5).
#[cycle(expr)]
#[tactic(auto, unfolding(crate::specs::PartReads::paren, crate::specs::Reads::and_then))]
pub(crate) fn paren(
    alloc: Global,
    t: &[Tok],
    at: usize,
    room: u32,
) -> Result<Found<Box<Expr>>, ParseErr>
    ensures { GivesTree boxed_shown expr_depth (room + 1) t.now at result
        (paren (parsers room) (drop at t.now)) }
{
    let left = take(alloc, t, at, Want::Op(LEFT_PAREN))?;
    let operand = expr(alloc, t, left.end, room)?;
    let right = take(alloc, t, operand.end, Want::Op(RIGHT_PAREN))?;
    let tree = paren_of(alloc, left.item, operand.tree, right.item)?;
    Ok(Found {
        tree,
        end: right.end,
        depth: operand.depth + 1,
    })
}

/// A comma and an expression.
#[cycle(expr)]
#[tactic(auto, unfolding(crate::specs::Reads::behind, crate::specs::Reads::and_then))]
fn next_expr(alloc: Global, t: &[Tok], at: usize, room: u32) -> Result<Found<(Tok, Expr)>, ParseErr>
    ensures gives { GivesTree item_shown item_depth room t.now at result
        (behind (is_op COMMA) (parsers room).expr (drop at t.now)) }
    ensures forth { IfOk result (λ x. at < x.end) }
{
    let comma = take(alloc, t, at, Want::Op(COMMA))?;
    let operand = expr(alloc, t, comma.end, room)?;
    Ok(Found {
        tree: (comma.item, Box::into_inner(operand.tree)),
        end: operand.end,
        depth: operand.depth,
    })
}

/// Commas and expressions, as many as stand there.
#[cycle(expr)]
fn more_exprs(
    alloc: Global,
    t: &[Tok],
    at: usize,
    room: u32,
) -> Result<Found<List<(Tok, Expr)>>, Memory>
    requires { at ≤ length t.now }
    ensures { IfOk result (IsFound (map item_shown) (list_depth item_depth) room t.now at
        (many (behind (is_op COMMA) (parsers room).expr) (drop at t.now))) }
{
    let mut more = Found {
        tree: List::new(alloc),
        end: at,
        depth: 0,
    };
    'items: while let Some(next) = attempt(next_expr(alloc, t, more.end, room))? {
        more = grown(more, next)?;
    }
    Ok(more)
}

/// Expressions with commas between them, if any stand there.
#[cycle(expr)]
pub fn exprs(
    alloc: Global,
    t: &[Tok],
    at: usize,
    room: u32,
) -> Result<Found<Option<Many<Expr>>>, Memory>
    requires { at ≤ length t.now }
    ensures { IfOk result (IsFound exprs_found found_depth room t.now at
        (optional (separated COMMA (parsers room).expr) (drop at t.now))) }
{
    let Some(first) = attempt(expr(alloc, t, at, room))? else {
        return Ok(Found::left_out(at));
    };
    let rest = more_exprs(alloc, t, first.end, room)?;
    Ok(Found {
        tree: Some(Many {
            first: first.tree,
            rest: rest.tree,
        }),
        end: rest.end,
        depth: deeper(first.depth, rest.depth),
    })
}

/// Arguments in parentheses (JLS 15.12).
#[cycle(expr)]
#[tactic(auto, unfolding(crate::specs::PartReads::args, crate::specs::Reads::and_then))]
pub(crate) fn args(
    alloc: Global,
    t: &[Tok],
    at: usize,
    room: u32,
) -> Result<Found<Box<Args>>, ParseErr>
    ensures { GivesTree boxed_args_shown args_depth room t.now at result
        (args (parsers room) (drop at t.now)) }
{
    let left = take(alloc, t, at, Want::Op(LEFT_PAREN))?;
    let list = exprs(alloc, t, left.end, room)?;
    let right = take(alloc, t, list.end, Want::Op(RIGHT_PAREN))?;
    let tree = args_of(alloc, left.item, list.tree, right.item)?;
    Ok(Found {
        tree,
        end: right.end,
        depth: list.depth,
    })
}

/// Arguments themselves, for what holds them without a pointer.
pub(crate) fn args_alone(
    alloc: Global,
    t: &[Tok],
    at: usize,
    room: u32,
) -> Result<Found<Args>, ParseErr>
    ensures { GivesTree args_shown args_depth room t.now at result
        (args (parsers room) (drop at t.now)) }
{
    let found = args(alloc, t, at, room)?;
    Ok(Found {
        tree: Box::into_inner(found.tree),
        end: found.end,
        depth: found.depth,
    })
}

/// An expression in brackets: a size, or an index (JLS 15.10, 15.13).
#[cycle(expr)]
#[tactic(auto, unfolding(crate::specs::PartReads::sized, crate::specs::Reads::and_then))]
pub(crate) fn bracketed(
    alloc: Global,
    t: &[Tok],
    at: usize,
    room: u32,
) -> Result<Found<(Tok, Box<Expr>, Tok)>, ParseErr>
    ensures gives { GivesTree bracketed_shown size_depth room t.now at result
        (sized (parsers room) (drop at t.now)) }
    ensures forth { IfOk result (λ x. at < x.end) }
{
    let left = take(alloc, t, at, Want::Op(LEFT_BRACKET))?;
    let operand = expr(alloc, t, left.end, room)?;
    let right = take(alloc, t, operand.end, Want::Op(RIGHT_BRACKET))?;
    Ok(Found {
        tree: (left.item, operand.tree, right.item),
        end: right.end,
        depth: operand.depth,
    })
}

/// A size in brackets (JLS 15.10).
#[cycle(expr)]
fn sized(
    alloc: Global,
    t: &[Tok],
    at: usize,
    room: u32,
) -> Result<Found<(Tok, Expr, Tok)>, ParseErr>
    ensures gives { GivesTree size_shown size_depth room t.now at result
        (sized (parsers room) (drop at t.now)) }
    ensures forth { IfOk result (λ x. at < x.end) }
{
    let found = bracketed(alloc, t, at, room)?;
    let (left, operand, right) = found.tree;
    Ok(Found {
        tree: (left, Box::into_inner(operand), right),
        end: found.end,
        depth: found.depth,
    })
}

/// Sizes in brackets, as many as stand there.
#[cycle(expr)]
pub(crate) fn sizes(
    alloc: Global,
    t: &[Tok],
    at: usize,
    room: u32,
) -> Result<Found<List<(Tok, Expr, Tok)>>, Memory>
    requires { at ≤ length t.now }
    ensures { IfOk result (IsFound (map size_shown) (list_depth size_depth) room t.now at
        (many (sized (parsers room)) (drop at t.now))) }
{
    let mut list = Found {
        tree: List::new(alloc),
        end: at,
        depth: 0,
    };
    'items: while let Some(next) = attempt(sized(alloc, t, list.end, room))? {
        list = grown(list, next)?;
    }
    Ok(list)
}

/// A comma and an item.
#[cycle(expr)]
#[tactic(auto, unfolding(crate::specs::Reads::behind, crate::specs::Reads::and_then))]
fn next_init(alloc: Global, t: &[Tok], at: usize, room: u32) -> Result<Found<(Tok, Init)>, ParseErr>
    ensures gives { GivesTree init_item_shown init_item_depth room t.now at result
        (behind (is_op COMMA) (parsers room).init (drop at t.now)) }
    ensures forth { IfOk result (λ x. at < x.end) }
{
    let comma = take(alloc, t, at, Want::Op(COMMA))?;
    let operand = init(alloc, t, comma.end, room)?;
    Ok(Found {
        tree: (comma.item, Box::into_inner(operand.tree)),
        end: operand.end,
        depth: operand.depth,
    })
}

/// Commas and items, as many as stand there.
#[cycle(expr)]
fn more_inits(
    alloc: Global,
    t: &[Tok],
    at: usize,
    room: u32,
) -> Result<Found<List<(Tok, Init)>>, Memory>
    requires { at ≤ length t.now }
    ensures { IfOk result (IsFound (map init_item_shown) (list_depth init_item_depth) room t.now at
        (many (behind (is_op COMMA) (parsers room).init) (drop at t.now))) }
{
    let mut more = Found {
        tree: List::new(alloc),
        end: at,
        depth: 0,
    };
    'items: while let Some(next) = attempt(next_init(alloc, t, more.end, room))? {
        more = grown(more, next)?;
    }
    Ok(more)
}

/// Items with commas between them, if any stand there.
#[cycle(expr)]
fn inits(
    alloc: Global,
    t: &[Tok],
    at: usize,
    room: u32,
) -> Result<Found<Option<Many<Init>>>, Memory>
    requires { at ≤ length t.now }
    ensures { IfOk result (IsFound inits_found inits_found_depth room t.now at
        (optional (separated COMMA (parsers room).init) (drop at t.now))) }
{
    let Some(first) = attempt(init(alloc, t, at, room))? else {
        return Ok(Found::left_out(at));
    };
    let rest = more_inits(alloc, t, first.end, room)?;
    Ok(Found {
        tree: Some(Many {
            first: first.tree,
            rest: rest.tree,
        }),
        end: rest.end,
        depth: deeper(first.depth, rest.depth),
    })
}

/// Items in braces, with a comma behind the last one or without (JLS 10.6).
#[cycle(expr)]
#[tactic(auto, unfolding(crate::specs::PartReads::braces, crate::specs::Reads::and_then))]
pub(crate) fn braces(
    alloc: Global,
    t: &[Tok],
    at: usize,
    room: u32,
) -> Result<Found<Box<Braces>>, ParseErr>
    ensures { GivesTree boxed_braces_shown braces_depth room t.now at result
        (braces (parsers room) (drop at t.now)) }
{
    let left = take(alloc, t, at, Want::Op(LEFT_BRACE))?;
    let items = inits(alloc, t, left.end, room)?;
    let comma = take_if(alloc, t, items.end, Want::Op(COMMA))?;
    let right = take(alloc, t, comma.end, Want::Op(RIGHT_BRACE))?;
    let tree = braces_of(alloc, left.item, items.tree, comma.item, right.item)?;
    Ok(Found {
        tree,
        end: right.end,
        depth: items.depth,
    })
}
