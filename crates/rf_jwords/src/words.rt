ghost use Rattle.std.specs.Prelude.{◌≡◌, [], None, Some, IfOk};
ghost use Rattle.rf_jtree.specs.Operators.{operator_of};
ghost use Rattle.rf_jtree.specs.Words.{keyword_of};
ghost use Rattle.rf_jtree.specs.declared.operators.Op.{Op as Operator};
ghost use Rattle.rf_jtree.specs.declared.words.Kw.{Kw as Keyword};
ghost use Rattle.rf_jtree.specs.declared.tokens.TokKind.TheVariants.{Op as IsOperator, Key as IsKeyword};

use rf_jtree::{Tok, TokKind, keyword, operator};
use rf_text::{Bytes, List, Memory};
use std::alloc::Global;

/// The sort of a literal or an identifier, by its first byte. Each number is an `int`.
fn other_kind(bytes: &[u8]) -> TokKind {
    match bytes {
        [b'0'..=b'9', ..] => TokKind::Int,
        [b'"', ..] => TokKind::Str,
        [b'\'', ..] => TokKind::Char,
        b"true" => TokKind::True,
        b"false" => TokKind::False,
        b"null" => TokKind::Null,
        _ => TokKind::Ident,
    }
}

/// The sort of the token that these bytes spell: an operator, a keyword, an `int`, a string, a character, `true`, `false`,
/// `null`, or else an identifier.
pub fn kind(bytes: &[u8]) -> TokKind
    ensures operators { (op : Operator) → operator_of bytes.now ≡ Some op → result ≡ IsOperator op }
    ensures keywords { (word : Keyword) → operator_of bytes.now ≡ None
        → keyword_of bytes.now ≡ Some word → result ≡ IsKeyword word }
{
    match operator(bytes) {
        Some(op) => TokKind::Op(op),
        None => match keyword(bytes) {
            Some(word) => TokKind::Key(word),
            None => other_kind(bytes),
        },
    }
}

/// A token with these bytes, of the sort that they spell, and nothing before it.
pub fn token(alloc: Global, bytes: &[u8]) -> Result<Tok, Memory>
    ensures text { IfOk result (λ tok. (tok.text ≡ bytes.now) × (tok.lead ≡ [])) }
    ensures operators { (op : Operator) → operator_of bytes.now ≡ Some op
        → IfOk result (λ tok. tok.kind ≡ IsOperator op) }
    ensures keywords { (word : Keyword) → operator_of bytes.now ≡ None
        → keyword_of bytes.now ≡ Some word → IfOk result (λ tok. tok.kind ≡ IsKeyword word) }
{
    let text = Bytes::from_slice(alloc, bytes)?;
    Ok(Tok {
        kind: kind(bytes),
        lead: Bytes::new(alloc),
        text,
    })
}

/// The bytes before the first space, and those behind it: all and none where there is no space.
pub fn cut(text: &[u8]) -> (&[u8], &[u8]) {
    for at in 0..text.len() {
        if text[at] == b' ' {
            return (&text[..at], &text[at + 1..]);
        }
    }
    (text, &[])
}

/// The tokens of a text, which stand apart by spaces.
pub fn tokens(alloc: Global, text: &[u8]) -> Result<List<Tok>, Memory> {
    let mut toks = List::new(alloc);
    let mut left = text;
    for _ in 0..text.len() {
        let (word, rest) = cut(left);
        if !word.is_empty() {
            toks.push(token(alloc, word)?)?;
        }
        left = rest;
    }
    Ok(toks)
}
