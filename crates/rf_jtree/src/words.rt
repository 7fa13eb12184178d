ghost use Rattle.std.specs.Prelude.{◌≡◌, ℕ, List, slice_get, Some, IsTrue, map};
ghost use Rattle.rf_jtree.specs.Guesses.{keyword_guess};
ghost use Rattle.rf_jtree.specs.Words.{keyword_of, KEYWORDS};

use crate::tables::{byte_at, stands_at, texts};

/// The place, from 0, of a keyword in the list of the 50 keywords in alphabetical order (JLS 3.9).
#[derive(Clone, Copy, Debug, PartialEq, Eq)]
pub struct Kw(pub u8);

/// The keywords of Java (JLS 3.9), handed to the macro `$with`.
#[rattlefmt::skip]
macro_rules! keywords {
    ($with:ident) => { $with!(
        b"abstract", b"assert", b"boolean", b"break", b"byte", b"case", b"catch", b"char", b"class", b"const",
        b"continue", b"default", b"do", b"double", b"else", b"enum", b"extends", b"final", b"finally", b"float", b"for",
        b"goto", b"if", b"implements", b"import", b"instanceof", b"int", b"interface", b"long", b"native", b"new",
        b"package", b"private", b"protected", b"public", b"return", b"short", b"static", b"strictfp", b"super", b"switch",
        b"synchronized", b"this", b"throw", b"throws", b"transient", b"try", b"void", b"volatile", b"while"
    ) };
}

/// At each hash the place of the one keyword that has it: the length and the first two letters tell the keywords apart.
#[rattlefmt::skip]
static PLACES: [u8; 256] = [
    0, 0, 0, 1, 0, 0, 0, 0, 0, 0, 0, 0, 0, 0, 32, 0,
    0, 0, 0, 0, 0, 0, 0, 0, 0, 0, 33, 0, 0, 0, 45, 37,
    0, 0, 0, 39, 0, 0, 34, 0, 0, 0, 0, 38, 0, 0, 0, 0,
    0, 0, 0, 0, 4, 0, 0, 0, 0, 0, 0, 0, 0, 40, 0, 16,
    0, 0, 0, 0, 0, 5, 0, 0, 0, 0, 0, 6, 0, 0, 0, 0,
    0, 0, 0, 0, 0, 0, 0, 0, 0, 0, 0, 0, 29, 0, 0, 0,
    0, 0, 0, 0, 31, 0, 0, 0, 0, 0, 0, 0, 0, 0, 0, 0,
    0, 22, 30, 0, 0, 41, 0, 0, 0, 0, 0, 0, 0, 0, 0, 0,
    11, 0, 0, 0, 0, 0, 0, 0, 35, 0, 0, 7, 0, 0, 0, 0,
    0, 0, 0, 0, 0, 0, 0, 0, 0, 0, 0, 0, 42, 0, 17, 0,
    0, 36, 43, 0, 0, 49, 0, 0, 44, 0, 18, 0, 0, 0, 0, 0,
    0, 0, 0, 0, 0, 14, 0, 0, 0, 8, 0, 0, 19, 0, 0, 0,
    0, 0, 0, 0, 0, 0, 12, 26, 0, 15, 0, 0, 0, 0, 20, 24,
    0, 0, 0, 0, 0, 21, 0, 9, 0, 0, 28, 0, 0, 0, 13, 0,
    0, 0, 2, 0, 47, 0, 0, 23, 0, 10, 0, 27, 0, 0, 0, 0,
    0, 25, 0, 0, 3, 0, 0, 0, 0, 0, 46, 0, 48, 0, 0, 0,
];

/// Where `bytes` stands among the keywords, if it is one.
fn guess(bytes: &[u8]) -> u8
    ensures { result ≡ keyword_guess bytes.now }
{
    let hash = byte_at(bytes, 0) + 10 * byte_at(bytes, 1) + 6 * (bytes.len() % 256);
    PLACES[hash % 256]
}

/// The keyword that `bytes` spells, or `None` where it spells none (JLS 3.9). It takes no memory.
pub fn keyword(bytes: &[u8]) -> Option<Kw>
    ensures { result ≡ keyword_of bytes.now }
{
    static WORDS: [&[u8]; 50] = keywords!(texts);
    let place = guess(bytes);
    if stands_at(&WORDS, place, bytes) {
        Some(Kw(place))
    } else {
        None
    }
}

/// Whether each of `words` is the keyword of its place.
#[tactic(auto, using(crate::proofs::WordLemmas::keyword_of_borrowed))]
fn each_is_found(words: &[&[u8]]) -> bool
    ensures { map (λ word. word.now) words.now ≡ KEYWORDS → IsTrue result }
{
    for (place, word) in words.iter().enumerate() {
        match keyword(word) {
            Some(Kw(found)) if found as usize == place => {}
            _ => return false,
        }
    }
    true
}

/// Walks the 50 words: each is the keyword of its place.
pub fn every_keyword_is_found() -> bool
    ensures { IsTrue result }
{
    static WORDS: [&[u8]; 50] = keywords!(texts);
    each_is_found(&WORDS)
}

/// Each word of the list is a keyword with its own place, and nothing else is one.
pub fn keywords_are_found(bytes: &[u8])
    ensures each { (n : ℕ) (word : List ℕ)
        → slice_get KEYWORDS n ≡ Some word → keyword_of word ≡ Some (record { 0 = n }) }
    ensures only { (n : ℕ)
        → keyword_of bytes.now ≡ Some (record { 0 = n }) → slice_get KEYWORDS n ≡ Some bytes.now }
{}
