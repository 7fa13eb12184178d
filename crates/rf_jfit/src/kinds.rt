ghost use Rattle.std.specs.Prelude.{◌≡◌, ◌↔◌, IsTrue};
ghost use Rattle.rf_jtree.specs.Kinds.{IsOp, IsKey, IsIdent, IsStr, is_op_of, has_op, is_key_of, has_key, is_literal};

use rf_jtree::{Kw, Op, Tok, TokKind};

/// Whether the token is this separator or operator.
pub fn is_op(tok: &Tok, op: Op) -> bool
    ensures { IsTrue result ↔ IsOp op tok.now }
{
    match tok.kind {
        TokKind::Op(found) => found.0 == op.0,
        _ => false,
    }
}

/// Whether the token is this keyword.
pub fn is_key(tok: &Tok, word: Kw) -> bool
    ensures { IsTrue result ↔ IsKey word tok.now }
{
    match tok.kind {
        TokKind::Key(found) => found.0 == word.0,
        _ => false,
    }
}

/// Whether the token is an identifier.
pub fn is_ident(tok: &Tok) -> bool
    ensures { IsTrue result ↔ IsIdent tok.now }
{
    matches!(tok.kind, TokKind::Ident)
}

/// Whether the token is a string.
pub fn is_str(tok: &Tok) -> bool
    ensures { IsTrue result ↔ IsStr tok.now }
{
    matches!(tok.kind, TokKind::Str)
}

pub fn has_op(ops: &[Op], op: Op) -> bool
    ensures { result ≡ has_op ops.now op }
{
    ops.iter().any(|other| other.0 == op.0)
}

/// Whether the token is one of these separators and operators.
pub fn is_op_of(tok: &Tok, ops: &[Op]) -> bool
    ensures { result ≡ is_op_of ops.now tok.now }
{
    match tok.kind {
        TokKind::Op(op) => has_op(ops, op),
        _ => false,
    }
}

pub fn has_key(words: &[Kw], word: Kw) -> bool
    ensures { result ≡ has_key words.now word }
{
    words.iter().any(|other| other.0 == word.0)
}

/// Whether the token is one of these keywords.
pub fn is_key_of(tok: &Tok, words: &[Kw]) -> bool
    ensures { result ≡ is_key_of words.now tok.now }
{
    match tok.kind {
        TokKind::Key(word) => has_key(words, word),
        _ => false,
    }
}

/// Whether the token is a literal (JLS 3.10).
pub fn is_literal(tok: &Tok) -> bool
    ensures { result ≡ is_literal tok.now }
{
    match tok.kind {
        TokKind::Ident | TokKind::Key(_) | TokKind::Op(_) => false,
        TokKind::Int
        | TokKind::Long
        | TokKind::Float
        | TokKind::Double
        | TokKind::Char
        | TokKind::Str
        | TokKind::True
        | TokKind::False
        | TokKind::Null => true,
    }
}
