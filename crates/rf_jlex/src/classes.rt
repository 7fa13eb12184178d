ghost use Rattle.std.specs.Prelude.{◌≡◌};
ghost use Rattle.rf_jlex.specs.Classes.{class_of, class_at};

/// What the first byte of a text tells of the pieces that it may begin with.
#[derive(Clone, Copy, Debug, PartialEq, Eq)]
pub(crate) enum Class {
    /// The text is empty.
    End,
    WhiteSpace,
    /// `/`: a comment or an operator.
    Slash,
    Digit,
    /// `.`: a number or a separator.
    Point,
    /// `'`
    Quote,
    /// `"`
    DoubleQuote,
    /// A letter, `_`, `$` or a byte outside ASCII.
    Letter,
    Other,
}

fn class_of(byte: u8) -> Class
    ensures { result ≡ class_of byte }
{
    match byte {
        0x80.. | b'A'..=b'Z' | b'a'..=b'z' | b'_' | b'$' => Class::Letter,
        b' ' | b'\t' | 0x0C | b'\r' | b'\n' => Class::WhiteSpace,
        b'0'..=b'9' => Class::Digit,
        b'/' => Class::Slash,
        b'.' => Class::Point,
        b'\'' => Class::Quote,
        b'"' => Class::DoubleQuote,
        _ => Class::Other,
    }
}

pub(crate) fn class_at(text: &[u8]) -> Class
    ensures { result ≡ class_at text.now }
{
    match text {
        [first, ..] => class_of(*first),
        [] => Class::End,
    }
}
