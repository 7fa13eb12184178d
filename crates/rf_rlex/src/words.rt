ghost use Rattle.std.specs.Prelude.{◌≡◌, IfOk};
ghost use Rattle.std.specs.Str.{bytes_eq};
ghost use Rattle.rf_rlex.specs.Words as spec;

use crate::tokens::Tok;
use rf_text::{Bytes, Memory};
use std::alloc::Global;

fn is(text: &[u8], word: &[u8]) -> bool
    ensures { result ≡ bytes_eq text.now word.now }
{
    text == word
}

/// The reserved words of items.
#[tactic(auto, unfolding(crate::specs::Words::item_word))]
fn item_word(text: &[u8]) -> Option<Tok>
    ensures { result ≡ spec.item_word text.now }
{
    if is(text, b"rule") {
        return Some(Tok::Rule);
    }
    if is(text, b"derive") {
        return Some(Tok::Derive);
    }
    if is(text, b"for") {
        return Some(Tok::For);
    }
    if is(text, b"if") {
        return Some(Tok::If);
    }
    if is(text, b"then") {
        return Some(Tok::Then);
    }
    if is(text, b"means") {
        return Some(Tok::Means);
    }
    if is(text, b"end") {
        return Some(Tok::End);
    }
    None
}

/// The reserved words of formulas.
#[tactic(auto, unfolding(crate::specs::Words::form_word))]
fn form_word(text: &[u8]) -> Option<Tok>
    ensures { result ≡ spec.form_word text.now }
{
    if is(text, b"implies") {
        return Some(Tok::Implies);
    }
    if is(text, b"or") {
        return Some(Tok::Or);
    }
    if is(text, b"and") {
        return Some(Tok::And);
    }
    if is(text, b"not") {
        return Some(Tok::Not);
    }
    if is(text, b"all") {
        return Some(Tok::All);
    }
    if is(text, b"some") {
        return Some(Tok::Some);
    }
    if is(text, b"true") {
        return Some(Tok::True);
    }
    if is(text, b"false") {
        return Some(Tok::False);
    }
    if is(text, b"old") {
        return Some(Tok::Old);
    }
    None
}

#[tactic(auto, unfolding(crate::specs::Words::is_access))]
fn is_access(text: &[u8]) -> bool
    ensures { result ≡ spec.is_access text.now }
{
    is(text, b"private") || is(text, b"package") || is(text, b"protected") || is(text, b"public")
}

/// The token of a word: a reserved word, an access word, or else a name.
pub fn word_token(alloc: Global, text: &[u8]) -> Result<Tok, Memory>
    ensures { IfOk result (λ tok. tok ≡ spec.word_token text.now) }
{
    if let Some(tok) = item_word(text) {
        return Ok(tok);
    }
    if let Some(tok) = form_word(text) {
        return Ok(tok);
    }
    let word = Bytes::from_slice(alloc, text)?;
    if is_access(text) {
        return Ok(Tok::Access(word));
    }
    Ok(Tok::Name(word))
}
