ghost use Rattle.std.specs.Prelude.{◌≡◌, ◌&&◌, drop};
ghost use Rattle.rf_jtree.specs.declared.operator_names.TheConstants.{LEFT_BRACE};
ghost use Rattle.rf_jtree.specs.declared.keyword_names.TheConstants.{STATIC};
ghost use Rattle.rf_jexpr.specs.Gives.{passes};
ghost use Rattle.rf_jexpr.specs.Reads.{begins, is_key, is_op};
ghost use Rattle.rf_jmods.specs.ModReads.{goes_on_with};
ghost use Rattle.rf_jdecl.specs.HeadReads.{begins_callable};
ghost use Rattle.rf_jdecl.specs.MemberReads.{begins_initializer};
ghost use Rattle.rf_jdecl.specs.UnitReads.{begins_type};

use rf_jexpr::{Want, is_at, tok_at};
use rf_jtree::Tok;
use rf_jtree::keyword_names::{CLASS, INTERFACE, STATIC};
use rf_jtree::operator_names::{LEFT_BRACE, LEFT_PAREN};

/// Whether the tokens begin with `class` or `interface`, as a type does behind its modifiers (JLS 8.1, 9.1).
pub fn begins_type(t: &[Tok]) -> bool
    ensures { result ≡ begins begins_type t.now }
{
    is_at(t, 0, Want::Key(CLASS)) || is_at(t, 0, Want::Key(INTERFACE))
}

/// Whether the token behind the one at this place is what is wanted.
#[tactic(auto, using(crate::proofs::CodeLemmas::goings))]
fn goes_on_with(t: &[Tok], at: usize, want: Want) -> bool
    ensures { result ≡ goes_on_with (passes want) (drop at t.now) }
{
    let Some(_first) = tok_at(t, at) else {
        return false;
    };
    is_at(t, at + 1, want)
}

/// Whether an identifier and `(` stand there.
#[tactic(auto, unfolding(crate::specs::HeadReads::begins_callable))]
pub(crate) fn begins_callable(t: &[Tok], at: usize) -> bool
    ensures { result ≡ begins_callable (drop at t.now) }
{
    is_at(t, at, Want::Ident) && goes_on_with(t, at, Want::Op(LEFT_PAREN))
}

/// Whether `static` and `{` stand there.
fn begins_static(t: &[Tok], at: usize) -> bool
    ensures { result ≡ (begins (is_key STATIC) (drop at t.now) && goes_on_with (is_op LEFT_BRACE)
        (drop at t.now)) }
{
    is_at(t, at, Want::Key(STATIC)) && goes_on_with(t, at, Want::Op(LEFT_BRACE))
}

/// Whether `{` stands there, or `static` and `{` (JLS 8.6, 8.7).
#[tactic(auto, unfolding(crate::specs::MemberReads::begins_initializer))]
pub(crate) fn begins_initializer(t: &[Tok], at: usize) -> bool
    ensures { result ≡ begins_initializer (drop at t.now) }
{
    is_at(t, at, Want::Op(LEFT_BRACE)) || begins_static(t, at)
}
