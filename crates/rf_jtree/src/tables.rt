ghost use Rattle.std.specs.Prelude.{◌≡◌, ◌<◌, map};
ghost use Rattle.rf_jtree.specs.Guesses.{byte_at, stands_at};

/// The array of the texts of a table.
macro_rules! texts {
    ($($text:literal),*) => { [$($text),*] };
}

pub(crate) use texts;

/// The byte at this offset, or 0 behind the end.
pub(crate) fn byte_at(bytes: &[u8], at: usize) -> usize
    ensures value { result ≡ byte_at bytes.now at }
    ensures within { result < 256 }
{
    match bytes.get(at) {
        Some(byte) => usize::from(*byte),
        None => 0,
    }
}

/// Whether `bytes` is the text at this place of the table.
pub(crate) fn stands_at(table: &[&[u8]], place: u8, bytes: &[u8]) -> bool
    ensures { result ≡ stands_at (map (λ text. text.now) table.now) place bytes.now }
{
    match table.get(usize::from(place)) {
        Some(text) => *text == bytes,
        None => false,
    }
}
