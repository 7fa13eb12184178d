ghost use Rattle.std.specs.Prelude.{◌≡◌};
ghost use Rattle.rf_jexpr.specs.Descent.{is_left_side};
ghost use Rattle.rf_jmake.specs.ExprMade.{boxed_shown};
ghost use Rattle.rf_jexpr.specs.PrimaryReads.{is_no_name, is_no_new_array};

use rf_jfit::{is_left_side, is_no_name, is_no_new_array};
use rf_jtree::Expr;

// What sort of expression stands behind a pointer, as far as it decides what may follow.

/// Whether `.x` behind it is a field of its own: a name takes it in (JLS 15.11).
pub(crate) fn takes_field(expr: &Box<Expr>) -> bool
    ensures { result ≡ is_no_name (boxed_shown expr.now) }
{
    is_no_name(&**expr)
}

/// Whether `[..]` behind it is an index: a new array takes it for a size (JLS 15.10, 15.13).
pub(crate) fn takes_index(expr: &Box<Expr>) -> bool
    ensures { result ≡ is_no_new_array (boxed_shown expr.now) }
{
    is_no_new_array(&**expr)
}

/// Whether it may stand to the left of an assignment operator (JLS 15.26).
pub(crate) fn is_assignable(expr: &Box<Expr>) -> bool
    ensures { result ≡ is_left_side (boxed_shown expr.now) }
{
    is_left_side(&**expr)
}
