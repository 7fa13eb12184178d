ghost use Rattle.std.specs.Prelude.{◌≡◌, ◌≤◌, ◌<◌, drop, length, map, option_map, IfOk};
ghost use Rattle.rf_jtree.specs.NameShown.{many_shown};
ghost use Rattle.rf_jtree.specs.NameTrees.{many_depth, list_depth, option_depth};
ghost use Rattle.rf_jtree.specs.StmtShown.{var_shown};
ghost use Rattle.rf_jtree.specs.StmtTrees.{var_depth};
ghost use Rattle.rf_jtree.specs.declared.operator_names.TheConstants.{COMMA, ASSIGN};
ghost use Rattle.rf_jexpr.specs.Descent.{parsers};
ghost use Rattle.rf_jexpr.specs.Gives.{GivesTree, IsFound};
ghost use Rattle.rf_jexpr.specs.Reads.{is_op, many, optional, behind, separated};
ghost use Rattle.rf_jstmt.specs.StmtMade.{boxed_var_shown, boxed_beginning_shown, beginning_depth, next_var_shown, next_var_depth};
ghost use Rattle.rf_jstmt.specs.VarReads.{var};

use rf_jexpr::{Found, ParseErr, Want, attempt, deeper, dims, grown, init, take};
use rf_jtree::operator_names::{ASSIGN, COMMA};
use rf_jtree::{Dims, Init, Many, Tok, Var};
use rf_text::{List, Memory};
use std::alloc::Global;

/// `=` and what the variable begins with (JLS 8.3, 14.4).
#[tactic(auto, unfolding(rf_jexpr::specs::Reads::behind, rf_jexpr::specs::Reads::and_then))]
fn beginning(
    alloc: Global,
    t: &[Tok],
    at: usize,
    room: u32,
) -> Result<Found<(Tok, Box<Init>)>, ParseErr>
    ensures { GivesTree boxed_beginning_shown beginning_depth room t.now at result
        (behind (is_op ASSIGN) (parsers room).init (drop at t.now)) }
{
    let sign = take(alloc, t, at, Want::Op(ASSIGN))?;
    let expression = init(alloc, t, sign.end, room)?;
    Ok(Found {
        tree: (sign.item, expression.tree),
        end: expression.end,
        depth: expression.depth,
    })
}

/// The same, if it stands there.
#[tactic(auto, unfolding(rf_jexpr::specs::Reads::optional, rf_jexpr::specs::Reads::and_then, rf_jexpr::specs::Reads::or_else))]
fn some_beginning(
    alloc: Global,
    t: &[Tok],
    at: usize,
    room: u32,
) -> Result<Found<Option<(Tok, Box<Init>)>>, Memory>
    requires { at ≤ length t.now }
    ensures { IfOk result (IsFound (option_map boxed_beginning_shown) (option_depth beginning_depth)
        room t.now at (optional (behind (is_op ASSIGN) (parsers room).init) (drop at t.now))) }
{
    match attempt(beginning(alloc, t, at, room))? {
        Some(found) => Ok(found.there()),
        None => Ok(Found::left_out(at)),
    }
}

fn var_of(id: Tok, dims: Dims, beginning: Option<(Tok, Box<Init>)>) -> Var
    ensures { var_shown result ≡ record {
      id = id;
      dims = dims;
      init = option_map
          boxed_beginning_shown beginning;
    } }
{
    match beginning {
        None => Var {
            id,
            dims,
            init: None,
        },
        Some((sign, expression)) => Var {
            id,
            dims,
            init: Some((sign, Box::into_inner(expression))),
        },
    }
}

/// A variable: its name, brackets, and what it begins with (JLS 8.3, 14.4).
#[tactic(auto, unfolding(crate::specs::VarReads::var, rf_jexpr::specs::Reads::and_then))]
pub(crate) fn var(alloc: Global, t: &[Tok], at: usize, room: u32) -> Result<Found<Var>, ParseErr>
    ensures gives { GivesTree var_shown var_depth room t.now at result
        (var (parsers room) (drop at t.now)) }
    ensures forth { IfOk result (λ x. at < x.end) }
{
    let id = take(alloc, t, at, Want::Ident)?;
    let bracket_pairs = dims(alloc, t, id.end)?;
    let beginning = some_beginning(alloc, t, bracket_pairs.end, room)?;
    Ok(Found {
        tree: var_of(id.item, bracket_pairs.item, beginning.tree),
        end: beginning.end,
        depth: beginning.depth,
    })
}

/// A variable behind a pointer.
fn boxed_var(alloc: Global, var: Var) -> Result<Box<Var>, Memory>
    ensures { IfOk result (λ found. boxed_var_shown found ≡ var_shown var) }
{
    Ok(Box::new(alloc, var)?)
}

/// The first variable, behind a pointer.
fn first_var(alloc: Global, t: &[Tok], at: usize, room: u32) -> Result<Found<Box<Var>>, ParseErr>
    ensures { GivesTree boxed_var_shown var_depth room t.now at result
        (var (parsers room) (drop at t.now)) }
{
    let found = var(alloc, t, at, room)?;
    let end = found.end;
    let depth = found.depth;
    let tree = boxed_var(alloc, found.tree)?;
    Ok(Found { tree, end, depth })
}

/// A comma and a variable.
#[tactic(auto, unfolding(rf_jexpr::specs::Reads::behind, rf_jexpr::specs::Reads::and_then))]
fn next_var(alloc: Global, t: &[Tok], at: usize, room: u32) -> Result<Found<(Tok, Var)>, ParseErr>
    ensures gives { GivesTree next_var_shown next_var_depth room t.now at result
        (behind (is_op COMMA) (var (parsers room)) (drop at t.now)) }
    ensures forth { IfOk result (λ x. at < x.end) }
{
    let comma = take(alloc, t, at, Want::Op(COMMA))?;
    let found = var(alloc, t, comma.end, room)?;
    Ok(Found {
        tree: (comma.item, found.tree),
        end: found.end,
        depth: found.depth,
    })
}

/// Commas and variables, as many as stand there.
fn more_vars(
    alloc: Global,
    t: &[Tok],
    at: usize,
    room: u32,
) -> Result<Found<List<(Tok, Var)>>, Memory>
    requires { at ≤ length t.now }
    ensures { IfOk result (IsFound (map next_var_shown) (list_depth next_var_depth) room t.now at
        (many (behind (is_op COMMA) (var (parsers room))) (drop at t.now))) }
{
    let mut more = Found {
        tree: List::new(alloc),
        end: at,
        depth: 0,
    };
    'items: while let Some(next) = attempt(next_var(alloc, t, more.end, room))? {
        more = grown(more, next)?;
    }
    Ok(more)
}

/// Variables with commas between them, one at least (JLS 8.3, 14.4).
#[tactic(auto, unfolding(rf_jexpr::specs::Reads::separated, rf_jexpr::specs::Reads::and_then))]
pub fn vars(alloc: Global, t: &[Tok], at: usize, room: u32) -> Result<Found<Many<Var>>, ParseErr>
    ensures { GivesTree (many_shown var_shown) (many_depth var_depth) room t.now at result
        (separated COMMA (var (parsers room)) (drop at t.now)) }
{
    let first = first_var(alloc, t, at, room)?;
    let rest = more_vars(alloc, t, first.end, room)?;
    Ok(Found {
        tree: Many {
            first: first.tree,
            rest: rest.tree,
        },
        end: rest.end,
        depth: deeper(first.depth, rest.depth),
    })
}
