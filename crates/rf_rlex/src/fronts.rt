ghost use Rattle.std.specs.Prelude.{◌≡◌, ◌-◌, ◌≤◌, length, IfOk};
ghost use Rattle.rf_rlex.specs.Fronts as spec;
ghost use Rattle.rf_rlex.specs.Fronts.{IsWithin};

use crate::classes::{Class, class_of, comment_length, name_length, text_length};
use crate::tokens::Tok;
use crate::words::word_token;
use rf_text::{Bytes, Memory};
use std::alloc::Global;

/// What a text begins with, and how many bytes of it stand behind the first.
#[derive(Drop)]
pub enum Front {
    /// A blank, a line feed or a comment.
    Skip(usize),
    Token(Tok, usize),
    /// No token begins there.
    Nothing,
}

fn begins_with_equal(text: &[u8]) -> bool
    ensures { result ≡ spec.begins_with_equal text.now }
{
    matches!(text, [b'=', ..])
}

/// A sign of one byte, or of two where the second is `=`.
fn sign(first: u8, more: &[u8]) -> Front
    ensures value { result ≡ spec.sign first more.now }
    ensures within { IsWithin (length more.now) result }
{
    match first {
        b',' => Front::Token(Tok::Comma, 0),
        b':' => Front::Token(Tok::Colon, 0),
        b'.' => Front::Token(Tok::Dot, 0),
        b'(' => Front::Token(Tok::Left, 0),
        b')' => Front::Token(Tok::Right, 0),
        b'=' => Front::Token(Tok::Equal, 0),
        b'!' if begins_with_equal(more) => Front::Token(Tok::Unequal, 1),
        b'<' if begins_with_equal(more) => Front::Token(Tok::AtMost, 1),
        _ => Front::Nothing,
    }
}

fn begins_with_quote(text: &[u8]) -> bool
    ensures { result ≡ spec.begins_with_quote text.now }
{
    matches!(text, [b'"', ..])
}

/// What begins with a quote, which stands before `more`.
fn quoted(alloc: Global, more: &[u8]) -> Result<Front, Memory>
    ensures value { IfOk result (λ front. front ≡ spec.quoted more.now) }
    ensures within { IfOk result (λ front. IsWithin (length more.now) front) }
{
    let (text, behind) = more.split_at(text_length(more));
    if !begins_with_quote(behind) {
        return Ok(Front::Nothing);
    }
    let word = Bytes::from_slice(alloc, text)?;
    Ok(Front::Token(Tok::Text(word), text.len() + 1))
}

/// The word at the front of a text that begins with a letter.
fn word(alloc: Global, text: &[u8]) -> Result<Front, Memory>
    requires { 1 ≤ length text.now }
    ensures value { IfOk result (λ front. front ≡ spec.word text.now) }
    ensures within { IfOk result (λ front. IsWithin (length text.now - 1) front) }
{
    let more = name_length(text.split_at(1).1);
    let tok = word_token(alloc, text.split_at(1 + more).0)?;
    Ok(Front::Token(tok, more))
}

/// What a text begins with. The text isn't empty.
pub fn first_piece(alloc: Global, text: &[u8]) -> Result<Front, Memory>
    ensures value { IfOk result (λ front. front ≡ spec.front text.now) }
    ensures within { IfOk result (λ front. IsWithin (length text.now - 1) front) }
{
    let [first, more @ ..] = text else {
        return Ok(Front::Nothing);
    };
    match class_of(*first) {
        Class::Blank | Class::LineFeed => Ok(Front::Skip(0)),
        Class::Comment => Ok(Front::Skip(comment_length(more))),
        Class::Quote => quoted(alloc, more),
        Class::Letter => word(alloc, text),
        Class::Other => Ok(sign(*first, more)),
    }
}
