ghost use Rattle.std.specs.Prelude.{◌≡◌, ℕ, List, slice_get, Some, IsTrue, map};
ghost use Rattle.rf_jtree.specs.Guesses.{operator_guess};
ghost use Rattle.rf_jtree.specs.Operators.{OPERATORS, operator_of};

use crate::tables::{byte_at, stands_at, texts};

/// The place, from 0, of a separator or an operator in the list of both (JLS 3.11, 3.12).
#[derive(Clone, Copy, Debug, PartialEq, Eq)]
pub struct Op(pub u8);

/// The separators and operators of Java (JLS 3.11, 3.12), handed to the macro `$with`.
#[rattlefmt::skip]
macro_rules! operators {
    ($with:ident) => { $with!(
        b"(", b")", b"{", b"}", b"[", b"]", b";", b",", b".", b"@", b"=", b">", b"<", b"!", b"~", b"?", b":", b"==",
        b"<=", b">=", b"!=", b"&&", b"||", b"++", b"--", b"+", b"-", b"*", b"/", b"&", b"|", b"^", b"%", b"<<", b">>",
        b">>>", b"+=", b"-=", b"*=", b"/=", b"&=", b"|=", b"^=", b"%=", b"<<=", b">>=", b">>>="
    ) };
}

/// At each hash the place of the one text that has it: the bytes, the second one twice, have sums that tell the texts apart.
#[rattlefmt::skip]
static PLACES: [u8; 256] = [
    0, 0, 0, 0, 0, 0, 0, 0, 0, 0, 0, 0, 0, 0, 0, 0,
    0, 0, 0, 0, 0, 0, 0, 0, 0, 0, 0, 0, 0, 0, 0, 0,
    0, 13, 0, 0, 0, 32, 29, 0, 0, 1, 27, 25, 7, 26, 8, 28,
    0, 0, 0, 0, 0, 46, 0, 0, 0, 0, 16, 6, 12, 10, 11, 15,
    9, 0, 0, 0, 0, 0, 0, 0, 0, 0, 0, 0, 0, 0, 0, 0,
    0, 0, 0, 0, 0, 0, 0, 0, 0, 0, 0, 4, 0, 5, 31, 0,
    0, 0, 0, 0, 0, 0, 0, 0, 0, 0, 0, 0, 0, 0, 0, 0,
    0, 0, 21, 0, 22, 0, 0, 0, 0, 0, 0, 2, 30, 3, 14, 0,
    0, 23, 0, 0, 0, 0, 0, 24, 0, 0, 0, 0, 0, 0, 0, 0,
    0, 0, 0, 0, 0, 0, 0, 0, 0, 0, 0, 20, 0, 0, 0, 43,
    40, 0, 0, 0, 38, 36, 0, 37, 0, 39, 0, 0, 0, 0, 0, 0,
    0, 0, 0, 0, 33, 0, 18, 17, 19, 0, 34, 0, 0, 0, 0, 0,
    0, 0, 0, 0, 0, 0, 0, 0, 0, 0, 0, 0, 0, 0, 0, 0,
    0, 0, 0, 0, 0, 0, 0, 0, 42, 0, 0, 0, 0, 0, 0, 0,
    0, 0, 0, 0, 0, 0, 0, 0, 0, 0, 0, 0, 0, 0, 0, 0,
    0, 44, 0, 0, 0, 0, 41, 45, 35, 0, 0, 0, 0, 0, 0, 0,
];

/// Where `bytes` stands among the separators and operators, if it is one.
fn guess(bytes: &[u8]) -> u8
    ensures { result ≡ operator_guess bytes.now }
{
    let front = byte_at(bytes, 0) + 2 * byte_at(bytes, 1);
    let hash = front + byte_at(bytes, 2) + byte_at(bytes, 3);
    PLACES[hash % 256]
}

/// The separator or operator that `bytes` spells, or `None` where it spells none (JLS 3.11, 3.12). It takes no memory.
pub fn operator(bytes: &[u8]) -> Option<Op>
    ensures { result ≡ operator_of bytes.now }
{
    static TEXTS: [&[u8]; 47] = operators!(texts);
    let place = guess(bytes);
    if stands_at(&TEXTS, place, bytes) {
        Some(Op(place))
    } else {
        None
    }
}

/// Whether each of `words` is the separator or operator of its place.
#[tactic(auto, using(crate::proofs::OperatorLemmas::operator_of_borrowed))]
fn each_is_found(words: &[&[u8]]) -> bool
    ensures { map (λ word. word.now) words.now ≡ OPERATORS → IsTrue result }
{
    for (place, word) in words.iter().enumerate() {
        match operator(word) {
            Some(Op(found)) if found as usize == place => {}
            _ => return false,
        }
    }
    true
}

/// Walks the list: each text is the separator or operator of its place.
pub fn every_operator_is_found() -> bool
    ensures { IsTrue result }
{
    static TEXTS: [&[u8]; 47] = operators!(texts);
    each_is_found(&TEXTS)
}

/// Each text of the list is an operator with its own place, and nothing else is one.
pub fn operators_are_found(bytes: &[u8])
    ensures each { (n : ℕ) (word : List ℕ)
        → slice_get OPERATORS n ≡ Some word → operator_of word ≡ Some (record { 0 = n }) }
    ensures only { (n : ℕ)
        → operator_of bytes.now ≡ Some (record { 0 = n }) → slice_get OPERATORS n ≡ Some bytes.now }
{}
