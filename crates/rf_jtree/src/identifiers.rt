ghost use Rattle.std.specs.Prelude.{◌≡◌, ◌↔◌, IsTrue};
ghost use Rattle.std.specs.List.{list_all};
ghost use Rattle.std.specs.Str.{chars};
ghost use Rattle.rf_jtree.specs.declared.tokens.TokKind.TheVariants as kind;
ghost use Rattle.rf_jtree.specs.Identifiers.{is_letter, is_letter_or_digit, BeginsWithLetter, IsWord, word_kind};
ghost use Rattle.rf_jtree.specs.Tokens.{IsToken};

use crate::{TokKind, keyword};
use std::str;
use unicode_ident::{is_xid_continue, is_xid_start};

/// Whether a word may begin with the character (JLS 3.8).
pub fn is_letter(character: char) -> bool
    ensures { result ≡ is_letter character }
{
    is_xid_start(character) || character == '_' || character == '$'
}

/// Whether a word may go on with the character (JLS 3.8).
pub fn is_letter_or_digit(character: char) -> bool
    ensures { result ≡ is_letter_or_digit character }
{
    is_xid_continue(character) || character == '$'
}

/// What a word is: a keyword, a literal or an identifier (JLS 3.8, 3.9). Bytes that are no word may get any kind.
pub fn kind_of_word(word: &[u8]) -> TokKind
    ensures { result ≡ word_kind word.now }
{
    if let Some(keyword) = keyword(word) {
        TokKind::Key(keyword)
    } else if word == b"true".as_slice() {
        TokKind::True
    } else if word == b"false".as_slice() {
        TokKind::False
    } else if word == b"null".as_slice() {
        TokKind::Null
    } else {
        TokKind::Ident
    }
}

fn begins_with_letter(text: &str) -> bool
    ensures { IsTrue result ↔ BeginsWithLetter (chars text.now) }
{
    match text.chars().next() {
        Some(first) => is_letter(first),
        None => false,
    }
}

fn are_letters_and_digits(text: &str) -> bool
    ensures { result ≡ list_all is_letter_or_digit (chars text.now) }
{
    text.chars().all(|character| is_letter_or_digit(character))
}

/// Whether the bytes are letters and digits, the first of them a letter: an identifier, a keyword or a literal that is a
/// word.
pub fn is_word(bytes: &[u8]) -> bool
    ensures { IsTrue result ↔ IsWord bytes.now }
{
    match str::from_utf8(bytes) {
        Ok(text) => begins_with_letter(text) && are_letters_and_digits(text),
        Err(_) => false,
    }
}

/// Whether the bytes are an identifier (JLS 3.8), as a new name has to be.
pub fn is_identifier(bytes: &[u8]) -> bool
    ensures { IsTrue result ↔ IsToken kind.Ident bytes.now }
{
    is_word(bytes) && kind_of_word(bytes) == TokKind::Ident
}
