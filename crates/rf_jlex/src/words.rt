ghost use Rattle.std.specs.Prelude.{◌≡◌, ℕ, List, MatchOption, length, drop};
ghost use Rattle.std.specs.List.{take_while};
ghost use Rattle.rf_jtree.specs.Identifiers.{is_letter, is_letter_or_digit};
ghost use Rattle.rf_jlex.specs.Fronts.{GivesWord};
ghost use Rattle.rf_jlex.specs.Letters.{BeginsWithCharacter, BeginsWithPassing, is_ascii_letter_or_digit};

use bstr::decode_utf8;
use rf_jtree::{is_letter, is_letter_or_digit};

/// A text cut behind its first character.
#[derive(Clone, Copy, Debug)]
struct FirstCharacter<'a> {
    character: char,
    rest: &'a [u8],
}

/// The character that `text` begins with, if it begins with one in UTF-8.
fn first_character(text: &[u8]) -> Option<FirstCharacter<'_>>
    ensures { MatchOption result
        ((character : ℕ) (rest : List ℕ) → ¬ BeginsWithCharacter text.now character rest)
        (λ first. BeginsWithCharacter text.now first.character first.rest.now) }
{
    match decode_utf8(text) {
        (Some(character), size) => Some(FirstCharacter {
            character,
            rest: text.split_at(size).1,
        }),
        (None, _) => None,
    }
}

/// What follows the letter that `text` begins with, if it begins with one.
fn after_letter(text: &[u8]) -> Option<&[u8]>
    ensures { MatchOption result
        ((rest : List ℕ) → ¬ BeginsWithPassing is_letter text.now rest)
        (λ rest. BeginsWithPassing is_letter text.now rest.now) }
{
    let first = first_character(text)?;
    if is_letter(first.character) {
        Some(first.rest)
    } else {
        None
    }
}

/// What follows the letter or digit that `text` begins with, if it begins with one.
fn after_letter_or_digit(text: &[u8]) -> Option<&[u8]>
    ensures { MatchOption result
        ((rest : List ℕ) → ¬ BeginsWithPassing is_letter_or_digit text.now rest)
        (λ rest. BeginsWithPassing is_letter_or_digit text.now rest.now) }
{
    let first = first_character(text)?;
    if is_letter_or_digit(first.character) {
        Some(first.rest)
    } else {
        None
    }
}

/// Whether the byte is a letter or a digit of ASCII, `_` or `$`.
fn is_ascii_letter_or_digit(byte: u8) -> bool
    ensures { result ≡ is_ascii_letter_or_digit byte }
{
    byte.is_ascii_alphanumeric() || byte == b'_' || byte == b'$'
}

/// How many letters and digits of ASCII stand at the front of `text`.
fn ascii_length(text: &[u8]) -> usize
    ensures { result ≡ length (take_while is_ascii_letter_or_digit text.now) }
{
    text.iter()
        .take_while(|byte| is_ascii_letter_or_digit(**byte))
        .count()
}

/// What follows the letters and digits of ASCII at the front of `text`, which need no look at the tables of Unicode.
fn after_ascii(text: &[u8]) -> &[u8]
    ensures { result.now ≡ drop (length (take_while is_ascii_letter_or_digit text.now)) text.now }
{
    text.split_at(ascii_length(text)).1
}

/// The length in bytes of the longest word at the front of `text`: an identifier, a keyword or a literal that is a word
/// (JLS 3.8, 3.9, 3.10.3, 3.10.7).
pub(crate) fn longest_word(text: &[u8]) -> Option<usize>
    ensures { GivesWord text.now result }
{
    let first = after_letter(text)?;
    let mut rest = after_ascii(first);
    while let Some(more) = after_letter_or_digit(rest) {
        rest = after_ascii(more);
    }
    Some(text.len() - rest.len())
}
