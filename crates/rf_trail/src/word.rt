ghost use Rattle.std.specs.Prelude.{◌≡◌, ℕ, ◌<◌, ◌||◌, ◌&&◌, not, eqb};
ghost use Rattle.rf_trail.specs.Bits.{has_bit};

/// Whether the word has the bit.
pub fn bit_of(word: u64, at: u32) -> bool
    requires { at < 64 }
    ensures { result ≡ has_bit word at }
{
    (word >> at) & 1 == 1
}

pub fn with_bit(word: u64, at: u32) -> u64
    requires { at < 64 }
    ensures { (i : ℕ) → i < 64 → has_bit result i ≡ (has_bit word i || eqb i at) }
{
    word | (1 << at)
}

pub fn without_bit(word: u64, at: u32) -> u64
    requires { at < 64 }
    ensures { (i : ℕ) → i < 64 → has_bit result i ≡ (has_bit word i && not (eqb i at)) }
{
    word & !(1 << at)
}
