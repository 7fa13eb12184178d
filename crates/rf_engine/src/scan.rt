ghost use Rattle.std.specs.Prelude.{◌≡◌, ◌≢◌, ℕ, List, ◌++◌, ◌↔◌, Contains, IsTrue, MatchOption};
ghost use Rattle.std.specs.List.{AllPass};
ghost use Rattle.rf_engine.specs.Scan.{IsLongestFront, BeginsWithName};
ghost use Rattle.rf_engine.specs.Words.{is_blank, is_letter, is_letter_or_digit, LITERAL_WORDS, BeginsWithLetter, IsName};

use rf_jtree::keyword;

/// A text cut in two: what was read of it, and the rest.
#[derive(Clone, Copy, Debug)]
pub(crate) struct Cut<'a> {
    pub front: &'a [u8],
    pub rest: &'a [u8],
}

fn is_blank(byte: u8) -> bool
    ensures { result ≡ is_blank byte }
{
    byte == b' ' || byte == b'\n'
}

fn is_letter(byte: u8) -> bool
    ensures { result ≡ is_letter byte }
{
    byte.is_ascii_lowercase() || byte.is_ascii_uppercase() || byte == b'_' || byte == b'$'
}

fn is_letter_or_digit(byte: u8) -> bool
    ensures { result ≡ is_letter_or_digit byte }
{
    is_letter(byte) || byte.is_ascii_digit()
}

/// Cuts off the blanks that the text begins with.
pub(crate) fn blanks(text: &[u8]) -> Cut<'_>
    ensures { IsLongestFront is_blank text.now result.front.now result.rest.now }
{
    let mut count = 0;
    for byte in text {
        if !is_blank(*byte) {
            break;
        }
        count += 1;
    }
    let (front, rest) = text.split_at(count);
    Cut { front, rest }
}

/// Cuts off the letters and digits that the text begins with.
fn letters_and_digits(text: &[u8]) -> Cut<'_>
    ensures { IsLongestFront is_letter_or_digit text.now result.front.now result.rest.now }
{
    let mut count = 0;
    for byte in text {
        if !is_letter_or_digit(*byte) {
            break;
        }
        count += 1;
    }
    let (front, rest) = text.split_at(count);
    Cut { front, rest }
}

fn begins_with_letter(text: &[u8]) -> bool
    ensures { IsTrue result ↔ BeginsWithLetter text.now }
{
    match text {
        [first, ..] => is_letter(*first),
        [] => false,
    }
}

fn is_literal_word(text: &[u8]) -> bool
    ensures { IsTrue result ↔ Contains LITERAL_WORDS text.now }
{
    text == b"true".as_slice() || text == b"false".as_slice() || text == b"null".as_slice()
}

fn is_name(text: &[u8]) -> bool
    requires { AllPass is_letter_or_digit text.now }
    ensures { IsTrue result ↔ IsName text.now }
{
    begins_with_letter(text) && keyword(text).is_none() && !is_literal_word(text)
}

/// Cuts off the name that the text begins with, as long as letters and digits go on.
pub(crate) fn name(text: &[u8]) -> Option<Cut<'_>>
    ensures { MatchOption result
        ((word rest : List ℕ) → ¬ BeginsWithName text.now word rest)
        (λ cut. BeginsWithName text.now cut.front.now cut.rest.now) }
{
    let cut = letters_and_digits(text);
    if is_name(cut.front) { Some(cut) } else { None }
}

/// What follows `word` in a text that begins with it.
pub(crate) fn after<'a>(text: &'a [u8], word: &[u8]) -> Option<&'a [u8]>
    ensures { MatchOption result
        ((rest : List ℕ) → text.now ≢ word.now ++ rest)
        (λ rest. text.now ≡ word.now ++ rest.now) }
{
    text.strip_prefix(word)
}
