ghost use Rattle.std.specs.Prelude.{◌≡◌, ◌≢◌, ◌≤◌, ℕ, MatchOption, decimal};
ghost use Rattle.rf_request.specs.Numbers as spec;
ghost use Rattle.rf_request.specs.Forms.{MOST_DECISIONS};

use std::str;

/// Whether a text of digits is written as numbers are: without zeros or a sign in front.
fn is_plain(text: &[u8]) -> bool
    ensures { result ≡ spec.is_plain text.now }
{
    match text {
        [b'0'] => true,
        [b'0' | b'+', ..] => false,
        _ => true,
    }
}

/// The number of decisions that a word is in plain decimal.
pub(crate) fn decisions_of(word: &[u8]) -> Option<u64>
    ensures { MatchOption result
        ((number : ℕ) → number ≤ MOST_DECISIONS → word.now ≢ decimal number)
        (λ number. (number ≤ MOST_DECISIONS) × (word.now ≡ decimal number)) }
{
    if !is_plain(word) {
        return None;
    }
    let Ok(text) = str::from_utf8(word) else {
        return None;
    };
    match text.parse::<u64>() {
        Ok(number) if number <= 1_000_000 => Some(number),
        _ => None,
    }
}
