ghost use Rattle.std.specs.Prelude.{◌≡◌, ◌≤◌, drop, length};
ghost use Rattle.rf_jtree.specs.ExprFits.{ExprFits, InitFits, ArgsFit};
ghost use Rattle.rf_jtree.specs.ExprShown.{args_shown};
ghost use Rattle.rf_jtree.specs.ExprTrees.{expr_yield, expr_depth, init_yield, init_depth, args_yield, args_depth};
ghost use Rattle.rf_jtree.specs.NameFits.{NameFits, TypeFits};
ghost use Rattle.rf_jtree.specs.NameShown.{name_shown, type_shown};
ghost use Rattle.rf_jtree.specs.NameTrees.{name_yield, type_yield};
ghost use Rattle.rf_jexpr.specs.Descent.{parsers, creations};
ghost use Rattle.rf_jexpr.specs.Gives.{Gives, GivesTree};
ghost use Rattle.rf_jexpr.specs.Longest.{IsLongest, IsLongestOf, CreationFits, not_deep, of_taken, of_found};
ghost use Rattle.rf_jmake.specs.ExprMade.{boxed_shown, boxed_init_shown};
ghost use Rattle.rf_jexpr.specs.NameReads.{name, type_use};
ghost use Rattle.rf_jexpr.specs.PartReads.{args};

use crate::creation::creation;
use crate::found::{Found, Taken};
use crate::{ParseErr, names, parts, top};
use rf_jtree::{Args, Expr, Init, Name, Tok, TypeUse};
use std::alloc::Global;

// The longest tree of each sort that begins at the token `at`, with the number of the token behind it. `NoTree` comes
// exactly where there is none. Where there is a room, the tree is at most that deep, and the parser goes down at most so
// many levels, whatever the input nests.

/// The longest expression, and the number of the token behind it (JLS 15).
pub fn expr(alloc: Global, t: &[Tok], at: usize, room: u32) -> Result<(Expr, usize), ParseErr>
    requires { at ≤ length t.now }
    ensures { IsLongest t.now at room result }
{
    top::expr_and_end(alloc, t, at, room)
}

/// The same behind a pointer, with its depth, for a parser that goes on from it.
pub fn boxed_expr(
    alloc: Global,
    t: &[Tok],
    at: usize,
    room: u32,
) -> Result<Found<Box<Expr>>, ParseErr>
    ensures gives { GivesTree boxed_shown expr_depth room t.now at result
        ((parsers room).expr (drop at t.now)) }
    ensures longest { IsLongestOf ExprFits expr_yield expr_depth boxed_shown t.now at room
        (of_found result) }
{
    top::expr(alloc, t, at, room)
}

/// The longest initializer: an expression, or items in braces (JLS 8.3, 10.6).
pub fn init(alloc: Global, t: &[Tok], at: usize, room: u32) -> Result<Found<Box<Init>>, ParseErr>
    ensures gives { GivesTree boxed_init_shown init_depth room t.now at result
        ((parsers room).init (drop at t.now)) }
    ensures longest { IsLongestOf InitFits init_yield init_depth boxed_init_shown t.now at room
        (of_found result) }
{
    top::init(alloc, t, at, room)
}

/// The longest expression that begins with `new`, be it an object or an array (JLS 15.9, 15.10).
pub fn new_expr(
    alloc: Global,
    t: &[Tok],
    at: usize,
    room: u32,
) -> Result<Found<Box<Expr>>, ParseErr>
    ensures gives { GivesTree boxed_shown expr_depth room t.now at result
        (creations room (drop at t.now)) }
    ensures longest { IsLongestOf CreationFits expr_yield expr_depth boxed_shown t.now at room
        (of_found result) }
{
    if room == 0 {
        return Err(ParseErr::NoTree);
    }
    creation(alloc, t, at, room - 1)
}

/// The arguments in parentheses, of which there is one list at most (JLS 15.12).
pub fn args(alloc: Global, t: &[Tok], at: usize, room: u32) -> Result<Found<Args>, ParseErr>
    ensures gives { GivesTree args_shown args_depth room t.now at result
        (args (parsers room) (drop at t.now)) }
    ensures longest { IsLongestOf ArgsFit args_yield args_depth args_shown t.now at room
        (of_found result) }
{
    parts::args_alone(alloc, t, at, room)
}

/// The longest dotted name (JLS 6.2).
pub fn name(alloc: Global, t: &[Tok], at: usize) -> Result<Taken<Name>, ParseErr>
    ensures gives { Gives name_shown t.now at result (name (drop at t.now)) }
    ensures longest { IsLongestOf NameFits name_yield not_deep name_shown t.now at 0
        (of_taken result) }
{
    names::name(alloc, t, at)
}

/// The longest use of a type, with all the brackets behind it (JLS 4.1).
pub fn type_use(alloc: Global, t: &[Tok], at: usize) -> Result<Taken<TypeUse>, ParseErr>
    ensures gives { Gives type_shown t.now at result (type_use (drop at t.now)) }
    ensures longest { IsLongestOf TypeFits type_yield not_deep type_shown t.now at 0
        (of_taken result) }
{
    names::type_use(alloc, t, at)
}
