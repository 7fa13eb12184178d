ghost use Rattle.std.specs.Prelude.{◌≡◌, ◌==◌, ◌&&◌, ◌+◌, ◌-◌, ◌*◌, ◌<◌, ◌≤◌, ℕ, List, nat_lt, length, drop, MatchOption};
ghost use Rattle.rf_proof.specs.Numbers.{BeginsField, BeginsNumber};

use crate::words::after;

/// Whether a number has gone on past a first digit of zero.
fn has_leading_zero(value: u64, count: usize) -> bool
    ensures { result ≡ (value == 0 && nat_lt 0 count) }
{
    value == 0 && count > 0
}

/// The number with one digit more, if it isn't too great.
fn longer(value: u64, digit: u8, most: u64) -> Option<u64>
    requires { 48 ≤ digit }
    ensures { MatchOption result
        (most < value * 10 + (digit - 48))
        (λ more. (more ≡ value * 10 + (digit - 48)) × (more ≤ most)) }
{
    let tens = value.checked_mul(10)?;
    let more = tens.checked_add(u64::from(digit - b'0'))?;
    if more <= most { Some(more) } else { None }
}

/// The number of so many digits, and what is behind it.
fn ended(text: &[u8], count: usize, value: u64) -> Option<(u64, &[u8])>
    requires { count ≤ length text.now }
    ensures { MatchOption result
        (count ≡ 0)
        (λ found. (0 < count) × ((found.0 ≡ value) × (found.1.now ≡ drop count text.now))) }
{
    if count == 0 {
        return None;
    }
    Some((value, &text[count..]))
}

/// The number that the text begins with, in decimal digits with no zero before it, and what is behind it.
fn number(text: &[u8], most: u64) -> Option<(u64, &[u8])>
    ensures { MatchOption result
        ((n : ℕ) (rest : List ℕ) → BeginsNumber text.now most n rest → ⊥)
        (λ found. BeginsNumber text.now most found.0 found.1.now) }
{
    let mut value: u64 = 0;
    'digits: for at in 0..text.len() {
        let digit = text[at];
        if !digit.is_ascii_digit() {
            return ended(text, at, value);
        }
        if has_leading_zero(value, at) {
            return None;
        }
        value = longer(value, digit, most)?;
    }
    ended(text, text.len(), value)
}

/// The same behind a space.
pub fn field(text: &[u8], most: u64) -> Option<(u64, &[u8])>
    ensures { MatchOption result
        ((n : ℕ) (rest : List ℕ) → BeginsField text.now most n rest → ⊥)
        (λ found. BeginsField text.now most found.0 found.1.now) }
{
    let behind = after(text, b" ")?;
    number(behind, most)
}
