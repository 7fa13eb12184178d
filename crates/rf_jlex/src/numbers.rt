ghost use Rattle.std.specs.Prelude.{◌≡◌, ◌+◌, ◌<◌, ◌^◌, ◌||◌, ◌==◌};
ghost use Rattle.rf_jlex.specs.DigitRuns.{one_more};
ghost use Rattle.rf_jlex.specs.NumberLengths.{behind, unless_empty, after_zero_length, integer_length, integer_suffix, integer_of, signed_length, exponent_length, suffix_of, ending_of, after_point, after_whole, fraction_of, whole_literal_of, floating_of, longer};
ghost use Rattle.rf_jlex.specs.Fronts.{GivesNumber};

use crate::digits::Radix;
use rf_jtree::TokKind;

/// A number at the front of a text, and its length in bytes.
#[derive(Clone, Copy, Debug, PartialEq, Eq)]
pub(crate) struct Number {
    pub(crate) kind: TokKind,
    pub(crate) length: usize,
}

impl Number {
    /// The number with so many bytes before it.
    fn behind(self, count: usize) -> Number
        requires { count + self.length < 2 ^ 64 }
        ensures { result ≡ behind count self }
    {
        Number {
            kind: self.kind,
            length: count + self.length,
        }
    }

    /// The number, unless it is of no bytes.
    fn unless_empty(self) -> Option<Number>
        ensures { result ≡ unless_empty self }
    {
        if self.length == 0 { None } else { Some(self) }
    }
}

fn is_either(byte: u8, one: u8, other: u8) -> bool
    ensures { result ≡ ((byte == one) || (byte == other)) }
{
    byte == one || byte == other
}

/// One byte more, where there are any.
#[tactic(auto, unfolding(crate::specs::DigitRuns::one_more))]
fn one_more(length: usize) -> usize
    requires { 1 + length < 2 ^ 64 }
    ensures { result ≡ one_more length }
{
    if length == 0 { 0 } else { 1 + length }
}

/// What makes an integer of the zero before it: octal digits, or `x` or `b` and the digits behind it (JLS 3.10.1).
#[tactic(auto, using(crate::proofs::FirstByteLemmas::after_zero_first, crate::proofs::BoundLemmas::bounds))]
fn after_zero_length(text: &[u8]) -> usize
    ensures { result ≡ after_zero_length text.now }
{
    match text {
        [letter, digits @ ..] => {
            if is_either(*letter, b'x', b'X') {
                one_more(Radix::Hexadecimal.digits_length(digits))
            } else if is_either(*letter, b'b', b'B') {
                one_more(Radix::Binary.digits_length(digits))
            } else {
                Radix::Octal.run_length(text)
            }
        }
        [] => 0,
    }
}

/// The length of the longest integer without a suffix at the front, and 0 where there is none (JLS 3.10.1).
#[tactic(auto, using(crate::proofs::FirstByteLemmas::integer_length_first, crate::proofs::BoundLemmas::bounds))]
fn integer_length(text: &[u8]) -> usize
    ensures { result ≡ integer_length text.now }
{
    match text {
        [first, rest @ ..] => {
            if *first == b'0' {
                1 + after_zero_length(rest)
            } else {
                Radix::Decimal.digits_length(text)
            }
        }
        [] => 0,
    }
}

/// The suffix of an integer at the front of what follows it, and the kind that it makes of the integer (JLS 3.10.1).
#[tactic(auto, using(crate::proofs::FirstByteLemmas::integer_suffix_first))]
fn integer_suffix(text: &[u8]) -> Number
    ensures { result ≡ integer_suffix text.now }
{
    match text {
        [letter, ..] if is_either(*letter, b'l', b'L') => Number {
            kind: TokKind::Long,
            length: 1,
        },
        _ => Number {
            kind: TokKind::Int,
            length: 0,
        },
    }
}

/// The longest integer at the front (JLS 3.10.1).
#[tactic(auto, using(crate::proofs::BoundLemmas::bounds), unfolding(crate::specs::NumberLengths::integer_of))]
fn integer(text: &[u8]) -> Option<Number>
    ensures { result ≡ integer_of text.now }
{
    let length = integer_length(text);
    if length == 0 {
        None
    } else {
        Some(integer_suffix(&text[length..]).behind(length))
    }
}

/// The length of the digits at the front, with a sign if there is one.
#[tactic(auto, using(crate::proofs::FirstByteLemmas::signed_length_first, crate::proofs::BoundLemmas::bounds))]
fn signed_length(text: &[u8]) -> usize
    ensures { result ≡ signed_length text.now }
{
    match text {
        [sign, digits @ ..] => {
            if is_either(*sign, b'+', b'-') {
                one_more(Radix::Decimal.digits_length(digits))
            } else {
                Radix::Decimal.digits_length(text)
            }
        }
        [] => 0,
    }
}

/// The length of the longest exponent at the front, and 0 where there is none (JLS 3.10.2).
#[tactic(auto, using(crate::proofs::FirstByteLemmas::exponent_length_first, crate::proofs::BoundLemmas::bounds))]
fn exponent_length(text: &[u8]) -> usize
    ensures { result ≡ exponent_length text.now }
{
    match text {
        [letter, rest @ ..] if is_either(*letter, b'e', b'E') => one_more(signed_length(rest)),
        _ => 0,
    }
}

/// The suffix of a floating-point literal at the front of what follows it, and the kind that it makes of the literal
/// (JLS 3.10.2).
#[tactic(auto, using(crate::proofs::FirstByteLemmas::suffix_of_first))]
fn floating_suffix(text: &[u8]) -> Number
    ensures { result ≡ suffix_of text.now }
{
    match text {
        [letter, ..] if is_either(*letter, b'f', b'F') => Number {
            kind: TokKind::Float,
            length: 1,
        },
        [letter, ..] if is_either(*letter, b'd', b'D') => Number {
            kind: TokKind::Double,
            length: 1,
        },
        _ => Number {
            kind: TokKind::Double,
            length: 0,
        },
    }
}

/// The exponent and the suffix at the front, or what there is of them.
#[tactic(auto, using(crate::proofs::BoundLemmas::bounds), unfolding(crate::specs::NumberLengths::ending_of))]
fn ending(text: &[u8]) -> Number
    ensures { result ≡ ending_of text.now }
{
    let length = exponent_length(text);
    floating_suffix(&text[length..]).behind(length)
}

/// The rest of a floating-point literal behind its point: digits, an exponent and a suffix, or what there is of them.
#[tactic(auto, using(crate::proofs::BoundLemmas::bounds), unfolding(crate::specs::NumberLengths::after_point))]
fn after_point(text: &[u8]) -> Number
    ensures { result ≡ after_point text.now }
{
    let length = Radix::Decimal.digits_length(text);
    ending(&text[length..]).behind(length)
}

/// The rest of a floating-point literal behind its whole part.
#[tactic(auto, using(crate::proofs::FirstByteLemmas::after_whole_first, crate::proofs::BoundLemmas::bounds))]
fn after_whole(text: &[u8]) -> Option<Number>
    ensures { result ≡ after_whole text.now }
{
    match text {
        [first, rest @ ..] => {
            if *first == b'.' {
                Some(after_point(rest).behind(1))
            } else {
                ending(text).unless_empty()
            }
        }
        [] => None,
    }
}

/// The longest floating-point literal without a whole part, behind its point.
#[tactic(auto, using(crate::proofs::BoundLemmas::bounds), unfolding(crate::specs::NumberLengths::fraction_of))]
fn fraction(text: &[u8]) -> Option<Number>
    ensures { result ≡ fraction_of text.now }
{
    if Radix::Decimal.digits_length(text) == 0 {
        None
    } else {
        Some(after_point(text).behind(1))
    }
}

/// The longest floating-point literal with a whole part at the front.
#[tactic(auto, using(crate::proofs::BoundLemmas::bounds), unfolding(crate::specs::NumberLengths::whole_literal_of))]
fn whole_literal(text: &[u8]) -> Option<Number>
    ensures { result ≡ whole_literal_of text.now }
{
    let whole = Radix::Decimal.digits_length(text);
    if whole == 0 {
        None
    } else {
        Some(after_whole(&text[whole..])?.behind(whole))
    }
}

/// The longest floating-point literal at the front (JLS 3.10.2).
#[tactic(auto, using(crate::proofs::FirstByteLemmas::floating_of_first))]
fn floating(text: &[u8]) -> Option<Number>
    ensures { result ≡ floating_of text.now }
{
    match text {
        [first, rest @ ..] => {
            if *first == b'.' {
                fraction(rest)
            } else {
                whole_literal(text)
            }
        }
        [] => None,
    }
}

/// The longer of two, and the first where they are as long.
#[tactic(auto, unfolding(crate::specs::NumberLengths::longer))]
fn longer(first: Option<Number>, second: Option<Number>) -> Option<Number>
    ensures { result ≡ longer first second }
{
    match (first, second) {
        (Some(one), Some(other)) if one.length < other.length => Some(other),
        (None, other) => other,
        (one, _) => one,
    }
}

/// The longest number at the front of `text` (JLS 3.10.1, 3.10.2).
#[tactic(auto, using(crate::proofs::ChoiceLemmas::longest_number_is))]
pub(crate) fn longest_number(text: &[u8]) -> Option<Number>
    ensures { GivesNumber text.now result }
{
    longer(integer(text), floating(text))
}
