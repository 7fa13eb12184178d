ghost use Rattle.std.specs.Prelude.{◌≤◌, drop, length};
ghost use Rattle.rf_jtree.specs.NameShown.{mods_shown, type_shown};
ghost use Rattle.rf_jtree.specs.StmtShown.{first_shown};
ghost use Rattle.rf_jexpr.specs.Descent.{parsers};
ghost use Rattle.rf_jexpr.specs.Gives.{GivesTree};
ghost use Rattle.rf_jstmt.specs.StmtGives.{IsFirstKnown, GivesForm};
ghost use Rattle.rf_jstmt.specs.StmtMade.{for_head_shown, for_head_depth, each_head_shown, each_head_depth, for_rest_shown, for_rest_depth, each_rest_shown, each_rest_depth};
ghost use Rattle.rf_jstmt.specs.StmtParts.{for_head, each_head, for_rest, each_rest};
ghost use Rattle.rf_jstmt.specs.StmtReads.{while_stmt, do_stmt, basic_for, each_for, local_for, for_stmt};

use crate::heads::{head_at, optional_expr, statement_exprs};
use crate::locals::{begins_label_at, begins_local, local_vars};
use crate::top::stmt;
use rf_jexpr::{Found, ParseErr, Want, boxed_expr, deeper, pair, pair_found, take, type_use};
use rf_jmake::put;
use rf_jmake::stmts::{do_of, each_of, for_of, while_of};
use rf_jmods::variable_mods;
use rf_jtree::keyword_names::{DO, FOR, WHILE};
use rf_jtree::operator_names::{COLON, LEFT_PAREN, RIGHT_PAREN, SEMICOLON};
use rf_jtree::{EachHead, Expr, ForFirst, ForHead, Many, Mod, Stmt, Tok, TypeUse};
use rf_text::List;
use std::alloc::Global;

// In each function, `room` is what is left for the parts, so that a statement itself has one more.

/// `while (..) body` (JLS 14.12).
#[cycle(stmt)]
#[tactic(auto, unfolding(crate::specs::StmtReads::while_stmt, rf_jexpr::specs::Reads::and_then))]
pub(crate) fn while_stmt(
    alloc: Global,
    t: &[Tok],
    at: usize,
    room: u32,
) -> Result<Found<Box<Stmt>>, ParseErr>
    ensures { GivesForm t.now at room result while_stmt }
{
    let test = head_at(alloc, t, at, room, WHILE)?;
    let body = stmt(alloc, t, test.end, room)?;
    let tree = while_of(alloc, test.tree, body.tree)?;
    Ok(Found {
        tree,
        end: body.end,
        depth: deeper(test.depth, body.depth) + 1,
    })
}

/// `do body while (..);` (JLS 14.13).
#[cycle(stmt)]
#[tactic(auto, unfolding(crate::specs::StmtReads::do_stmt, rf_jexpr::specs::Reads::and_then))]
pub(crate) fn do_stmt(
    alloc: Global,
    t: &[Tok],
    at: usize,
    room: u32,
) -> Result<Found<Box<Stmt>>, ParseErr>
    ensures { GivesForm t.now at room result do_stmt }
{
    let word = take(alloc, t, at, Want::Key(DO))?;
    let body = stmt(alloc, t, word.end, room)?;
    let test = head_at(alloc, t, body.end, room, WHILE)?;
    let semi = take(alloc, t, test.end, Want::Op(SEMICOLON))?;
    let tree = do_of(alloc, word.item, body.tree, test.tree, semi.item)?;
    Ok(Found {
        tree,
        end: semi.end,
        depth: deeper(body.depth, test.depth) + 1,
    })
}

/// What of a basic `for` stands behind its first part, up to its body.
#[derive(Drop)]
pub(crate) struct ForRest {
    pub semi1: Tok,
    pub test: Option<Box<Expr>>,
    pub semi2: Tok,
    pub last: Option<Many<Expr>>,
    pub right: Tok,
}

/// `; test; last)` of a `for`, behind its first part (JLS 14.14.1).
#[tactic(auto, unfolding(crate::specs::StmtParts::for_rest, rf_jexpr::specs::Reads::and_then))]
fn for_rest(alloc: Global, t: &[Tok], at: usize, room: u32) -> Result<Found<ForRest>, ParseErr>
    ensures { GivesTree for_rest_shown for_rest_depth room t.now at result
        (for_rest (parsers room) (drop at t.now)) }
{
    let semi1 = take(alloc, t, at, Want::Op(SEMICOLON))?;
    let test = pair_found(optional_expr(alloc, t, semi1.end, room), semi1.item)?;
    let semi2 = pair(take(alloc, t, test.end, Want::Op(SEMICOLON)), test.tree)?;
    let last = pair_found(statement_exprs(alloc, t, semi2.end, room), semi2.item)?;
    let right = pair(take(alloc, t, last.end, Want::Op(RIGHT_PAREN)), last.tree)?;
    let ((((first, expression), second), values), end) = right.item;
    Ok(Found {
        tree: ForRest {
            semi1: first,
            test: expression,
            semi2: second,
            last: values,
            right: end,
        },
        end: right.end,
        depth: deeper(test.depth, last.depth),
    })
}

/// A basic `for` up to its body, behind its first part (JLS 14.14.1).
#[tactic(auto, unfolding(crate::specs::StmtParts::for_head, rf_jexpr::specs::Reads::and_then))]
fn for_head(
    alloc: Global,
    t: &[Tok],
    room: u32,
    word: Tok,
    left: Tok,
    first: Found<ForFirst>,
) -> Result<Found<Box<ForHead>>, ParseErr>
    requires known { IsFirstKnown first }
    requires shallow { first.depth ≤ room }
    ensures { GivesTree for_head_shown for_head_depth room t.now first.end result
        (for_head (parsers room) word left (first_shown first.tree) (drop first.end t.now)) }
{
    let rest = for_rest(alloc, t, first.end, room)?;
    let head = ForHead {
        word,
        left,
        first: first.tree,
        semi1: rest.tree.semi1,
        test: rest.tree.test,
        semi2: rest.tree.semi2,
        last: rest.tree.last,
        right: rest.tree.right,
    };
    Ok(Found {
        tree: put(alloc, head)?,
        end: rest.end,
        depth: deeper(first.depth, rest.depth),
    })
}

/// A basic `for`, behind its first part (JLS 14.14.1).
#[cycle(stmt)]
#[tactic(auto, unfolding(crate::specs::StmtReads::basic_for, rf_jexpr::specs::Reads::and_then))]
fn basic_for(
    alloc: Global,
    t: &[Tok],
    room: u32,
    word: Tok,
    left: Tok,
    first: Found<ForFirst>,
) -> Result<Found<Box<Stmt>>, ParseErr>
    requires known { IsFirstKnown first }
    requires shallow { first.depth ≤ room }
    ensures { GivesForm t.now first.end room result
        (λ p s. basic_for p s word left (first_shown first.tree)) }
{
    let head = for_head(alloc, t, room, word, left, first)?;
    let body = stmt(alloc, t, head.end, room)?;
    let tree = for_of(alloc, head.tree, body.tree)?;
    Ok(Found {
        tree,
        end: body.end,
        depth: deeper(head.depth, body.depth) + 1,
    })
}

/// What of a `for` over what an expression gives stands behind its type, up to its body.
#[derive(Drop)]
pub(crate) struct EachRest {
    pub id: Tok,
    pub colon: Tok,
    pub over: Box<Expr>,
    pub right: Tok,
}

/// `x : over)` of a `for`, behind its type (JLS 14.14.2).
#[tactic(auto, unfolding(crate::specs::StmtParts::each_rest, rf_jexpr::specs::Reads::and_then))]
fn each_rest(alloc: Global, t: &[Tok], at: usize, room: u32) -> Result<Found<EachRest>, ParseErr>
    ensures { GivesTree each_rest_shown each_rest_depth room t.now at result
        (each_rest (parsers room) (drop at t.now)) }
{
    let id = take(alloc, t, at, Want::Ident)?;
    let colon = pair(take(alloc, t, id.end, Want::Op(COLON)), id.item)?;
    let over = pair_found(boxed_expr(alloc, t, colon.end, room), colon.item)?;
    let right = pair(take(alloc, t, over.end, Want::Op(RIGHT_PAREN)), over.tree)?;
    let (((name, mark), expression), end) = right.item;
    Ok(Found {
        tree: EachRest {
            id: name,
            colon: mark,
            over: expression,
            right: end,
        },
        end: right.end,
        depth: over.depth,
    })
}

/// A `for` over what an expression gives up to its body, behind its type (JLS 14.14.2).
#[tactic(auto, unfolding(crate::specs::StmtParts::each_head, rf_jexpr::specs::Reads::and_then))]
fn each_head(
    alloc: Global,
    t: &[Tok],
    at: usize,
    room: u32,
    word: Tok,
    left: Tok,
    mods: List<Mod>,
    used_type: TypeUse,
) -> Result<Found<Box<EachHead>>, ParseErr>
    ensures { GivesTree each_head_shown each_head_depth room t.now at result
        (each_head (parsers room) word left (mods_shown mods) (type_shown used_type)
        (drop at t.now)) }
{
    let rest = each_rest(alloc, t, at, room)?;
    let head = EachHead {
        word,
        left,
        mods,
        used_type,
        id: rest.tree.id,
        colon: rest.tree.colon,
        over: rest.tree.over,
        right: rest.tree.right,
    };
    Ok(Found {
        tree: put(alloc, head)?,
        end: rest.end,
        depth: rest.depth,
    })
}

/// A `for` over what an expression gives, behind its type (JLS 14.14.2).
#[cycle(stmt)]
#[tactic(auto, unfolding(crate::specs::StmtReads::each_for, rf_jexpr::specs::Reads::and_then))]
fn each_for(
    alloc: Global,
    t: &[Tok],
    at: usize,
    room: u32,
    word: Tok,
    left: Tok,
    mods: List<Mod>,
    used_type: TypeUse,
) -> Result<Found<Box<Stmt>>, ParseErr>
    ensures { GivesForm t.now at room result (λ p s. each_for p s word left (mods_shown mods)
        (type_shown used_type)) }
{
    let head = each_head(alloc, t, at, room, word, left, mods, used_type)?;
    let body = stmt(alloc, t, head.end, room)?;
    let tree = each_of(alloc, head.tree, body.tree)?;
    Ok(Found {
        tree,
        end: body.end,
        depth: deeper(head.depth, body.depth) + 1,
    })
}

/// A `for` with a declaration: of one variable before `:`, or of any number (JLS 14.14).
#[cycle(stmt)]
#[tactic(auto, unfolding(crate::specs::StmtReads::local_for, rf_jexpr::specs::Reads::and_then))]
fn local_for(
    alloc: Global,
    t: &[Tok],
    at: usize,
    room: u32,
    word: Tok,
    left: Tok,
) -> Result<Found<Box<Stmt>>, ParseErr>
    requires { at ≤ length t.now }
    ensures { GivesForm t.now at room result (λ p s. local_for p s word left) }
{
    let mods = variable_mods(alloc, t, at)?;
    let used_type = type_use(alloc, t, mods.end)?;
    if begins_label_at(t, used_type.end) {
        return each_for(
            alloc,
            t,
            used_type.end,
            room,
            word,
            left,
            mods.item,
            used_type.item,
        );
    }
    let local = local_vars(alloc, t, used_type.end, room, mods.item, used_type.item)?;
    let first = Found {
        tree: ForFirst::Local(local.tree),
        end: local.end,
        depth: local.depth,
    };
    basic_for(alloc, t, room, word, left, first)
}

/// `for (..) body` (JLS 14.14).
#[cycle(stmt)]
#[tactic(auto, unfolding(crate::specs::StmtReads::for_stmt, rf_jexpr::specs::Reads::and_then))]
pub(crate) fn for_stmt(
    alloc: Global,
    t: &[Tok],
    at: usize,
    room: u32,
) -> Result<Found<Box<Stmt>>, ParseErr>
    ensures { GivesForm t.now at room result for_stmt }
{
    let word = take(alloc, t, at, Want::Key(FOR))?;
    let left = take(alloc, t, word.end, Want::Op(LEFT_PAREN))?;
    if begins_local(t, left.end) {
        return local_for(alloc, t, left.end, room, word.item, left.item);
    }
    let exprs = statement_exprs(alloc, t, left.end, room)?;
    let first = Found {
        tree: ForFirst::Exprs(exprs.tree),
        end: exprs.end,
        depth: exprs.depth,
    };
    basic_for(alloc, t, room, word.item, left.item, first)
}
