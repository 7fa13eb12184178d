ghost use Rattle.std.specs.Prelude.{◌≡◌, ◌↔◌, IsTrue};
ghost use Rattle.rf_jtree.specs.Tokens.{LineComment, BlockComment};
ghost use Rattle.rf_jtree.specs.Trivia.{is_line_end, EscapesAreAllowed};
ghost use Rattle.rf_jlex.specs.Comments.{line_length, GivesFirstEnd, AllowsEscape, IsReadable};
ghost use Rattle.rf_jlex.specs.Fronts.{GivesOnly};

use crate::escapes::unicode_escape;
use memchr::{memchr, memmem};
use std::str;

/// The codes that no escape in a comment stands for: LF, CR, `*` and `/` (JLS 3.3).
const REFUSED_IN_COMMENTS: [u16; 4] = [0x0A, 0x0D, 0x2A, 0x2F];

/// The length in bytes of the comment to the end of the line at the front of `text` (JLS 3.7).
pub(crate) fn line_comment(text: &[u8]) -> Option<usize>
    ensures { GivesOnly LineComment text.now result }
{
    if !text.starts_with(b"//") {
        return None;
    }
    let length = line_length(text);
    if is_readable(&text[..length]) {
        Some(length)
    } else {
        None
    }
}

/// The length in bytes of the comment in `/*` and `*/` at the front of `text` (JLS 3.7).
pub(crate) fn block_comment(text: &[u8]) -> Option<usize>
    ensures { GivesOnly BlockComment text.now result }
{
    let body = text.strip_prefix(b"/*")?;
    let end = first_end(body)?;
    let length = end + 4;
    if is_readable(&text[..length]) {
        Some(length)
    } else {
        None
    }
}

fn is_line_end(byte: u8) -> bool
    ensures { result ≡ is_line_end byte }
{
    byte == b'\r' || byte == b'\n'
}

fn line_length(text: &[u8]) -> usize
    ensures { result ≡ line_length text.now }
{
    text.iter().take_while(|byte| !is_line_end(**byte)).count()
}

/// Where the first `*/` stands.
fn first_end(body: &[u8]) -> Option<usize>
    ensures { GivesFirstEnd body.now result }
{
    memmem::find(body, b"*/")
}

/// Whether the bytes of a comment are text, and its escapes may stand in a comment.
fn is_readable(comment: &[u8]) -> bool
    ensures { IsTrue result ↔ IsReadable comment.now }
{
    str::from_utf8(comment).is_ok() && escapes_are_allowed(comment)
}

/// Whether each `\u` begins an escape that may stand in a comment, but for those whose backslash a backslash escapes.
fn escapes_are_allowed(comment: &[u8]) -> bool
    ensures { IsTrue result ↔ EscapesAreAllowed comment.now }
{
    match memchr(b'\\', comment) {
        Some(_) => escapes_fit(comment),
        None => true,
    }
}

/// The same, backslash by backslash.
fn escapes_fit(comment: &[u8]) -> bool
    ensures { IsTrue result ↔ EscapesAreAllowed comment.now }
{
    let mut is_escaped = false;
    for (at, byte) in comment.iter().enumerate() {
        let begins_escape = *byte == b'\\' && !is_escaped;
        if begins_escape && !allows_escape(&comment[at..]) {
            return false;
        }
        is_escaped = begins_escape;
    }
    true
}

fn allows_escape(text: &[u8]) -> bool
    ensures { IsTrue result ↔ AllowsEscape text.now }
{
    !text.starts_with(b"\\u") || unicode_escape(&REFUSED_IN_COMMENTS, text).is_some()
}
