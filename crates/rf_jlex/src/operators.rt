ghost use Rattle.std.specs.Prelude.{◌≡◌, ◌≤◌, length, take};
ghost use Rattle.std.specs.List.{take_while};
ghost use Rattle.rf_jtree.specs.Tokens.{begins_comment};
ghost use Rattle.rf_jlex.specs.Fronts.{GivesOperator};
ghost use Rattle.rf_jlex.specs.OperatorFronts.{may_go_on, IsMost, GivesWithin};

use rf_jtree::{Op, operator};

/// A separator or an operator at the front of a text, and its length in bytes.
#[derive(Clone, Copy, Debug, PartialEq, Eq)]
pub(crate) struct FrontOperator {
    pub(crate) op: Op,
    pub(crate) length: usize,
}

/// Whether `text` begins with a comment (JLS 3.7).
fn begins_comment(text: &[u8]) -> bool
    ensures { result ≡ begins_comment text.now }
{
    text.starts_with(b"//") || text.starts_with(b"/*")
}

/// Whether some operator has the byte behind its first.
fn may_go_on(byte: u8) -> bool
    ensures { result ≡ may_go_on byte }
{
    matches!(byte, b'=' | b'>' | b'<' | b'&' | b'|' | b'+' | b'-')
}

/// How many of the next three bytes an operator may go on with.
fn bytes_that_go_on(text: &[u8]) -> usize
    ensures { result ≡ length (take_while may_go_on (take 3 text.now)) }
{
    text.iter()
        .take(3)
        .take_while(|byte| may_go_on(**byte))
        .count()
}

/// The most bytes that an operator at the front of `text` may have.
fn most_bytes(text: &[u8]) -> usize
    ensures { IsMost text.now result }
{
    match text {
        [first, rest @ ..] => {
            if first.is_ascii_punctuation() {
                1 + bytes_that_go_on(rest)
            } else {
                0
            }
        }
        [] => 0,
    }
}

/// The longest separator or operator of at most so many bytes at the front of `text`.
fn longest_within(text: &[u8], most: usize) -> Option<FrontOperator>
    requires { most ≤ length text.now }
    ensures { GivesWithin text.now most result }
{
    let mut length = most;
    while length > 0 {
        if let Some(op) = operator(&text[..length]) {
            return Some(FrontOperator { op, length });
        }
        length -= 1;
    }
    None
}

/// The longest separator or operator at the front of `text` (JLS 3.11, 3.12). None stands where a comment begins.
pub(crate) fn longest_operator(text: &[u8]) -> Option<FrontOperator>
    ensures { GivesOperator text.now result }
{
    if begins_comment(text) {
        return None;
    }
    longest_within(text, most_bytes(text))
}
