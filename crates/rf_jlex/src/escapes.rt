ghost use Rattle.std.specs.Prelude.{◌≡◌, ◌==◌, ◌<◌, ◌≤◌, ◌↔◌, length, take, IfSome, IsTrue, Contains};
ghost use Rattle.std.specs.List.{prefix_len};
ghost use Rattle.rf_jtree.specs.Digits.{is_octal_digit};
ghost use Rattle.rf_jtree.specs.Escapes.{IsUnicodeEscape, IsOctalEscape, IsEscape, SIMPLE_ESCAPES};
ghost use Rattle.rf_jtree.specs.Quoted.{REFUSED_IN_LITERALS};
ghost use Rattle.rf_jlex.specs.EscapeFronts.{GivesOnlyFront, GivesLongestFront, hex_code, hex_value, most_octal_digits};

/// The codes that no escape in a literal may have: LF, CR, `"`, `'` and `\`.
const REFUSED_CODES: [u16; 5] = [0x0A, 0x0D, 0x22, 0x27, 0x5C];

fn hex_value(byte: u8) -> Option<u16>
    ensures value { result ≡ hex_value byte }
    ensures small { IfSome result (λ value. value < 16) }
{
    match byte {
        b'0'..=b'9' => Some(u16::from(byte - b'0')),
        b'A'..=b'F' => Some(u16::from(byte - b'A') + 10),
        b'a'..=b'f' => Some(u16::from(byte - b'a') + 10),
        _ => None,
    }
}

/// The code that the four hexadecimal digits at the front of `text` stand for.
fn hex_code(text: &[u8]) -> Option<u16>
    ensures { result ≡ hex_code text.now }
{
    let [first, second, third, fourth, ..] = text else {
        return None;
    };
    let a = hex_value(*first)?;
    let b = hex_value(*second)?;
    let c = hex_value(*third)?;
    let d = hex_value(*fourth)?;
    Some(((a * 16 + b) * 16 + c) * 16 + d)
}

/// How many times `text` begins with `u`.
fn count_u(text: &[u8]) -> usize
    ensures counted { result ≡ prefix_len (λ byte. byte == 117) text.now }
    ensures within { result ≤ length text.now }
{
    text.iter().take_while(|byte| **byte == b'u').count()
}

/// The length in bytes of the Unicode escape at the front of `text`, whose code is none of the refused ones (JLS 3.3).
pub(crate) fn unicode_escape(refused: &[u16], text: &[u8]) -> Option<usize>
    ensures { GivesOnlyFront (IsUnicodeEscape refused.now) text.now result }
{
    let [first, rest @ ..] = text else {
        return None;
    };
    let count = count_u(rest);
    if *first != b'\\' || count == 0 {
        return None;
    }
    let code = hex_code(&rest[count..])?;
    if refused.contains(&code) {
        None
    } else {
        Some(count + 5)
    }
}

fn is_octal_digit(byte: u8) -> bool
    ensures { result ≡ is_octal_digit byte }
{
    matches!(byte, b'0'..=b'7')
}

/// How many octal digits an escape may have that goes on with `text`: three only where the first is 0 to 3.
fn most_octal_digits(text: &[u8]) -> usize
    ensures { result ≡ most_octal_digits text.now }
{
    match text {
        [first, ..] if *first <= b'3' => 3,
        _ => 2,
    }
}

/// How many octal digits the longest octal escape has that goes on with `text`.
fn count_octal_digits(text: &[u8]) -> usize
    ensures counted { result ≡ prefix_len is_octal_digit
        (take (most_octal_digits text.now) text.now) }
    ensures within { result ≤ length text.now }
{
    let most = most_octal_digits(text);
    text.iter()
        .take(most)
        .take_while(|digit| is_octal_digit(**digit))
        .count()
}

/// The length in bytes of the longest octal escape at the front of `text`.
fn octal_escape(text: &[u8]) -> Option<usize>
    ensures { GivesLongestFront IsOctalEscape text.now result }
{
    let [first, digits @ ..] = text else {
        return None;
    };
    let count = count_octal_digits(digits);
    if *first != b'\\' || count == 0 {
        None
    } else {
        Some(count + 1)
    }
}

/// Whether the byte stands behind `\` for itself or for a control character.
fn is_simple_escape(byte: u8) -> bool
    ensures { IsTrue result ↔ Contains SIMPLE_ESCAPES byte }
{
    b"btnfr\"'\\".contains(&byte)
}

/// The length in bytes of the longest escape of a literal at the front of `text` (JLS 3.10.6).
pub(crate) fn escape(text: &[u8]) -> Option<usize>
    ensures { GivesLongestFront (IsEscape REFUSED_IN_LITERALS) text.now result }
{
    let [first, second, ..] = text else {
        return None;
    };
    if *first != b'\\' {
        None
    } else if is_simple_escape(*second) {
        Some(2)
    } else if *second == b'u' {
        unicode_escape(&REFUSED_CODES, text)
    } else {
        octal_escape(text)
    }
}
