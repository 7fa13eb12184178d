ghost use Rattle.std.specs.Prelude.{◌≡◌};
ghost use Rattle.rf_jstmt.specs.VarReads.{begins_label};

use rf_jexpr::{Want, is_at};
use rf_jtree::Tok;
use rf_jtree::operator_names::COLON;

/// Whether the tokens begin with an identifier and `:`, as a label does (JLS 14.7).
pub fn begins_label(t: &[Tok]) -> bool
    ensures { result ≡ begins_label t.now }
{
    is_at(t, 0, Want::Ident) && is_at(t, 1, Want::Op(COLON))
}
