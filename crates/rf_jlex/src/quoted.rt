ghost use Rattle.std.specs.Prelude.{◌≡◌, ◌<◌, ◌↔◌, length, slice_index, Contains, IsTrue, IsUtf8};
ghost use Rattle.rf_jtree.specs.Quoted.{NOT_IN_STRINGS, IsCharacterUnit};
ghost use Rattle.rf_jtree.specs.Tokens.{Token};
ghost use Rattle.rf_jtree.specs.declared.tokens.TokKind.TheVariants as kind;
ghost use Rattle.rf_jlex.specs.EscapeFronts.{GivesOnlyFront};
ghost use Rattle.rf_jlex.specs.Fronts.{GivesOnly};
ghost use Rattle.rf_jlex.specs.QuotedFronts.{IsPlain, GivesCharacterBody, GivesStringStep, IsOnlyStringBody};

use crate::escapes::escape;
use bstr::decode_utf8;

/// Whether `byte` stands at `at`.
fn is_at(text: &[u8], at: usize, byte: u8) -> bool
    ensures { IsTrue result ↔ ((at < length text.now) × (slice_index text.now at ≡ byte)) }
{
    at < text.len() && text[at] == byte
}

fn is_utf8(text: &[u8]) -> bool
    ensures { IsTrue result ↔ IsUtf8 text.now }
{
    str::from_utf8(text).is_ok()
}

/// Whether the character stands for itself in a character literal, and takes one unit of sixteen bits.
fn is_plain(character: char) -> bool
    ensures { IsTrue result ↔ IsPlain character }
{
    character < '\u{10000}' && !['\'', '\\', '\r', '\n'].contains(&character)
}

/// The length in bytes of the character at the front of `text` that stands for itself in a character literal.
fn plain_character(text: &[u8]) -> Option<usize>
    ensures { GivesOnlyFront IsCharacterUnit text.now result }
{
    let (character, length) = decode_utf8(text);
    let character = character?;
    if is_plain(character) {
        Some(length)
    } else {
        None
    }
}

/// The length in bytes of what may stand between the quotes of a character literal.
fn character_body(text: &[u8]) -> Option<usize>
    ensures { GivesCharacterBody text.now result }
{
    if is_at(text, 0, b'\\') {
        escape(text)
    } else {
        plain_character(text)
    }
}

/// The length in bytes of the character literal at the front of `text` (JLS 3.10.4).
pub(crate) fn character_literal(text: &[u8]) -> Option<usize>
    ensures { GivesOnly (Token kind.Char) text.now result }
{
    let [first, rest @ ..] = text else {
        return None;
    };
    if *first != b'\'' {
        return None;
    }
    let length = character_body(rest)?;
    if is_at(rest, length, b'\'') {
        Some(length + 2)
    } else {
        None
    }
}

/// Whether the byte stands for itself in a string literal.
fn is_plain_byte(byte: u8) -> bool
    ensures { IsTrue result ↔ ¬ Contains NOT_IN_STRINGS byte }
{
    !b"\"\\\r\n".contains(&byte)
}

/// The length in bytes of the unit of a string literal at the front of `text`, with all octal digits that go on there.
fn string_step(text: &[u8]) -> Option<usize>
    ensures { GivesStringStep text.now result }
{
    let [first, ..] = text else {
        return None;
    };
    if *first == b'\\' {
        escape(text)
    } else if is_plain_byte(*first) {
        Some(1)
    } else {
        None
    }
}

/// The length in bytes of what stands between the quotes of a string literal.
fn string_body(text: &[u8]) -> usize
    ensures { IsOnlyStringBody text.now result }
{
    let mut end = 0;
    while let Some(length) = string_step(&text[end..]) {
        end += length;
    }
    end
}

/// The length in bytes of the string literal at the front of `text` (JLS 3.10.5).
pub(crate) fn string_literal(text: &[u8]) -> Option<usize>
    ensures { GivesOnly (Token kind.Str) text.now result }
{
    let [first, rest @ ..] = text else {
        return None;
    };
    if *first != b'"' {
        return None;
    }
    let length = string_body(rest);
    if is_at(rest, length, b'"') && is_utf8(&text[..length + 2]) {
        Some(length + 2)
    } else {
        None
    }
}
