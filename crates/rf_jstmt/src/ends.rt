ghost use Rattle.std.specs.Prelude.{◌≡◌, ◌≤◌, ◌<◌, drop, length, IfSome};
ghost use Rattle.rf_jtree.specs.declared.operator_names.TheConstants.{DOT};
ghost use Rattle.rf_jexpr.specs.Gives.{passes};
ghost use Rattle.rf_jexpr.specs.NameReads.{name, brackets, type_base, type_use};
ghost use Rattle.rf_jexpr.specs.Reads.{is_op, is_ident, token, many, behind};
ghost use Rattle.rf_jstmt.specs.StmtMade.{IsEnd, IsEndOf, pair_of};

use rf_jexpr::{Want, is_at, tok_at};
use rf_jtree::Tok;
use rf_jtree::operator_names::{DOT, LEFT_BRACKET, RIGHT_BRACKET};

// Where names and types end, with nothing of them being kept.

/// The place behind a token that is what is wanted.
pub(crate) fn tok_end(t: &[Tok], at: usize, want: Want) -> Option<usize>
    ensures end { IsEnd t.now at (token (passes want) (drop at t.now)) result }
    ensures forth { IfSome result (λ end. at < end) }
{
    let Some(_tok) = tok_at(t, at) else {
        return None;
    };
    if is_at(t, at, want) {
        Some(at + 1)
    } else {
        None
    }
}

/// The place behind two tokens that are what is wanted.
fn pair_end(t: &[Tok], at: usize, first: Want, second: Want) -> Option<usize>
    ensures end { IsEnd t.now at (pair_of (passes first) (passes second) (drop at t.now)) result }
    ensures forth { IfSome result (λ end. at < end) }
{
    match tok_end(t, at, first) {
        Some(next) => tok_end(t, next, second),
        None => None,
    }
}

/// The place behind dots and identifiers, as many as stand there.
fn ids_end(t: &[Tok], at: usize) -> usize
    requires { at ≤ length t.now }
    ensures { IsEndOf t.now at (many (behind (is_op DOT) (token is_ident)) (drop at t.now)) result }
{
    let mut end = at;
    'items: while let Some(next) = pair_end(t, end, Want::Op(DOT), Want::Ident) {
        end = next;
    }
    end
}

/// The place behind pairs of brackets, as many as stand there.
fn dims_end(t: &[Tok], at: usize) -> usize
    requires { at ≤ length t.now }
    ensures { IsEndOf t.now at (many brackets (drop at t.now)) result }
{
    let mut end = at;
    'items: while let Some(next) = pair_end(
        t,
        end,
        Want::Op(LEFT_BRACKET),
        Want::Op(RIGHT_BRACKET),
    ) {
        end = next;
    }
    end
}

/// The place behind a dotted name (JLS 6.2).
fn name_end(t: &[Tok], at: usize) -> Option<usize>
    ensures { IsEnd t.now at (name (drop at t.now)) result }
{
    match tok_end(t, at, Want::Ident) {
        Some(first) => Some(ids_end(t, first)),
        None => None,
    }
}

/// The place behind a primitive type or a named one (JLS 4.2, 4.3).
fn base_end(t: &[Tok], at: usize) -> Option<usize>
    ensures { IsEnd t.now at (type_base (drop at t.now)) result }
{
    if is_at(t, at, Want::Primitive) {
        return tok_end(t, at, Want::Primitive);
    }
    name_end(t, at)
}

/// The place behind the use of a type (JLS 4.1).
pub(crate) fn type_end(t: &[Tok], at: usize) -> Option<usize>
    ensures { IsEnd t.now at (type_use (drop at t.now)) result }
{
    match base_end(t, at) {
        Some(base) => Some(dims_end(t, base)),
        None => None,
    }
}
