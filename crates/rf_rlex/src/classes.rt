ghost use Rattle.std.specs.Prelude.{◌≡◌, ◌≤◌, length};
ghost use Rattle.std.specs.List.{prefix_len};
ghost use Rattle.rf_rlex.specs.Classes as spec;

/// What a character begins where no piece of a text is under way.
#[derive(Clone, Copy, Debug, PartialEq, Eq)]
pub enum Class {
    Blank,
    LineFeed,
    /// `#`
    Comment,
    /// `"`
    Quote,
    Letter,
    Other,
}

pub fn class_of(byte: u8) -> Class
    ensures { result ≡ spec.class_of byte }
{
    match byte {
        b' ' | b'\t' | b'\r' => Class::Blank,
        b'\n' => Class::LineFeed,
        b'#' => Class::Comment,
        b'"' => Class::Quote,
        b'a'..=b'z' => Class::Letter,
        _ => Class::Other,
    }
}

fn is_in_name(byte: u8) -> bool
    ensures { result ≡ spec.is_in_name byte }
{
    matches!(byte, b'a'..=b'z' | b'0'..=b'9' | b'_')
}

fn is_in_comment(byte: u8) -> bool
    ensures { result ≡ spec.is_in_comment byte }
{
    byte != b'\n'
}

fn is_in_text(byte: u8) -> bool
    ensures { result ≡ spec.is_in_text byte }
{
    byte != b'"' && byte != b'\r' && byte != b'\n'
}

/// How many bytes at the front a name may go on with.
pub fn name_length(text: &[u8]) -> usize
    ensures value { result ≡ prefix_len spec.is_in_name text.now }
    ensures within { result ≤ length text.now }
{
    text.iter().take_while(|byte| is_in_name(**byte)).count()
}

/// How many bytes there are before the end of the line.
pub fn comment_length(text: &[u8]) -> usize
    ensures value { result ≡ prefix_len spec.is_in_comment text.now }
    ensures within { result ≤ length text.now }
{
    text.iter().take_while(|byte| is_in_comment(**byte)).count()
}

/// How many bytes at the front may stand between two quotes.
pub fn text_length(text: &[u8]) -> usize
    ensures value { result ≡ prefix_len spec.is_in_text text.now }
    ensures within { result ≤ length text.now }
{
    text.iter().take_while(|byte| is_in_text(**byte)).count()
}
