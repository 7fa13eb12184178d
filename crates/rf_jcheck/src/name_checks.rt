ghost use Rattle.std.specs.Prelude.{◌≡◌, ◌↔◌, IsTrue};
ghost use Rattle.rf_jtree.specs.Kinds.{IsOp, IsIdent, AreParens, AreBrackets, AreBraces};
ghost use Rattle.rf_jtree.specs.NameFits.{EachFits, NameFits, BracketsFit, DimsFit, BaseFits, TypeFits};
ghost use Rattle.rf_jtree.specs.NameShown.{name_shown, base_shown, type_shown};

use rf_jfit::{is_ident, is_key_of, is_op, is_str};
use rf_jtree::keyword_names::{MODIFIERS, PRIMITIVES};
use rf_jtree::operator_names::{
    COMMA, DOT, LEFT_BRACE, LEFT_BRACKET, LEFT_PAREN, RIGHT_BRACE, RIGHT_BRACKET, RIGHT_PAREN,
};
use rf_jtree::{Dims, Many, Mod, Name, Strs, Tok, TypeBase, TypeUse};

pub(crate) fn are_parens(left: &Tok, right: &Tok) -> bool
    ensures { IsTrue result ↔ AreParens left.now right.now }
{
    is_op(left, LEFT_PAREN) && is_op(right, RIGHT_PAREN)
}

pub(crate) fn are_brackets(left: &Tok, right: &Tok) -> bool
    ensures { IsTrue result ↔ AreBrackets left.now right.now }
{
    is_op(left, LEFT_BRACKET) && is_op(right, RIGHT_BRACKET)
}

pub(crate) fn are_braces(left: &Tok, right: &Tok) -> bool
    ensures { IsTrue result ↔ AreBraces left.now right.now }
{
    is_op(left, LEFT_BRACE) && is_op(right, RIGHT_BRACE)
}

fn more_ids_fit(rest: &[(Tok, Tok)]) -> bool
    ensures { IsTrue result ↔ EachFits (λ item. IsOp DOT item.0 × IsIdent item.1) rest.now }
{
    match rest {
        [] => true,
        [item, more @ ..] => is_op(&item.0, DOT) && is_ident(&item.1) && more_ids_fit(more),
    }
}

/// Whether a dotted name fits.
pub fn name_fits(name: &Name) -> bool
    ensures { IsTrue result ↔ NameFits (name_shown name.now) }
{
    is_ident(&name.ids.first) && more_ids_fit(name.ids.rest.as_slice())
}

fn brackets_fit(brackets: &[(Tok, Tok)]) -> bool
    ensures { IsTrue result ↔ EachFits BracketsFit brackets.now }
{
    match brackets {
        [] => true,
        [pair, more @ ..] => are_brackets(&pair.0, &pair.1) && brackets_fit(more),
    }
}

/// Whether pairs of brackets fit.
pub fn dims_fit(dims: &Dims) -> bool
    ensures { IsTrue result ↔ DimsFit dims.now }
{
    brackets_fit(dims.list.as_slice())
}

/// Whether a type without its brackets fits.
pub fn base_fits(base: &TypeBase) -> bool
    ensures { IsTrue result ↔ BaseFits (base_shown base.now) }
{
    match base {
        TypeBase::Prim(tok) => is_key_of(tok, &PRIMITIVES),
        TypeBase::Named(name) => name_fits(name),
    }
}

/// Whether the use of a type fits.
pub fn type_fits(used_type: &TypeUse) -> bool
    ensures { IsTrue result ↔ TypeFits (type_shown used_type.now) }
{
    base_fits(&used_type.base) && dims_fit(&used_type.dims)
}
