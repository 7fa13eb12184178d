ghost use Rattle.std.specs.Prelude.{◌≡◌};
ghost use Rattle.rf_jlex.specs.DigitRuns.{test_of, run_length, digits_length};

/// The base of the digits of a number (JLS 3.10.1).
#[derive(Clone, Copy, Debug, PartialEq, Eq)]
pub(crate) enum Radix {
    Binary,
    Octal,
    Decimal,
    Hexadecimal,
}

impl Radix {
    /// Whether the byte is a digit in this base.
    pub(crate) fn is_digit(self, byte: u8) -> bool
        ensures { result ≡ test_of self byte }
    {
        match self {
            Radix::Binary => byte == b'0' || byte == b'1',
            Radix::Octal => b'0' <= byte && byte <= b'7',
            Radix::Decimal => b'0' <= byte && byte <= b'9',
            Radix::Hexadecimal => byte.is_ascii_hexdigit(),
        }
    }

    /// The length of the digits and underscores that the text begins with, up to the last digit of them.
    pub(crate) fn run_length(self, text: &[u8]) -> usize
        ensures { result ≡ run_length (test_of self) text.now }
    {
        let mut end = 0;
        for (i, byte) in text.iter().enumerate() {
            if self.is_digit(*byte) {
                end = i + 1;
            } else if *byte != b'_' {
                break;
            }
        }
        end
    }

    /// The length of the longest front that is digits, with any underscores between them. It is 0 where there is none.
    #[tactic(auto, using(crate::proofs::FirstByteLemmas::digits_first))]
    pub(crate) fn digits_length(self, text: &[u8]) -> usize
        ensures { result ≡ digits_length (test_of self) text.now }
    {
        match text {
            [first, ..] if self.is_digit(*first) => self.run_length(text),
            _ => 0,
        }
    }
}
