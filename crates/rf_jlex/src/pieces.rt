ghost use Rattle.std.specs.Prelude.{◌≡◌};
ghost use Rattle.rf_jlex.specs.Classes.{class_at};
ghost use Rattle.rf_jlex.specs.Pieces.{GivesPiece, HasOnlyOperators};

use crate::classes::{Class, class_at};
use crate::comments::{block_comment, line_comment};
use crate::numbers::longest_number;
use crate::operators::longest_operator;
use crate::quoted::{character_literal, string_literal};
use crate::words::longest_word;
use rf_jtree::{TokKind, kind_of_word};

/// The sorts of pieces that a text is cut into (JLS 3.5).
#[derive(Clone, Copy, Debug, PartialEq, Eq)]
pub(crate) enum Sort {
    WhiteSpace,
    LineComment,
    BlockComment,
    Token(TokKind),
}

/// A piece at the front of a text, and its length in bytes.
#[derive(Clone, Copy, Debug, PartialEq, Eq)]
pub(crate) struct Piece {
    pub(crate) sort: Sort,
    pub(crate) length: usize,
}

fn white_space(text: &[u8]) -> Piece
    requires { class_at text.now ≡ Class.WhiteSpace }
    ensures { GivesPiece text.now (Some result) }
{
    Piece {
        sort: Sort::WhiteSpace,
        length: 1,
    }
}

fn operator(text: &[u8]) -> Option<Piece>
    requires { HasOnlyOperators text.now }
    ensures { GivesPiece text.now result }
{
    let front = longest_operator(text)?;
    Some(Piece {
        sort: Sort::Token(TokKind::Op(front.op)),
        length: front.length,
    })
}

fn comment_or_operator(text: &[u8]) -> Option<Piece>
    requires { class_at text.now ≡ Class.Slash }
    ensures { GivesPiece text.now result }
{
    if text.starts_with(b"//") {
        let length = line_comment(text)?;
        return Some(Piece {
            sort: Sort::LineComment,
            length,
        });
    }
    if text.starts_with(b"/*") {
        let length = block_comment(text)?;
        return Some(Piece {
            sort: Sort::BlockComment,
            length,
        });
    }
    operator(text)
}

fn number(text: &[u8]) -> Option<Piece>
    requires { class_at text.now ≡ Class.Digit }
    ensures { GivesPiece text.now result }
{
    let number = longest_number(text)?;
    Some(Piece {
        sort: Sort::Token(number.kind),
        length: number.length,
    })
}

/// A number that begins with `.` has a digit behind it, and so is longer than the separator.
fn number_or_point(text: &[u8]) -> Option<Piece>
    requires { class_at text.now ≡ Class.Point }
    ensures { GivesPiece text.now result }
{
    match longest_number(text) {
        Some(number) => Some(Piece {
            sort: Sort::Token(number.kind),
            length: number.length,
        }),
        None => operator(text),
    }
}

fn character(text: &[u8]) -> Option<Piece>
    requires { class_at text.now ≡ Class.Quote }
    ensures { GivesPiece text.now result }
{
    let length = character_literal(text)?;
    Some(Piece {
        sort: Sort::Token(TokKind::Char),
        length,
    })
}

fn string(text: &[u8]) -> Option<Piece>
    requires { class_at text.now ≡ Class.DoubleQuote }
    ensures { GivesPiece text.now result }
{
    let length = string_literal(text)?;
    Some(Piece {
        sort: Sort::Token(TokKind::Str),
        length,
    })
}

fn word(text: &[u8]) -> Option<Piece>
    requires { class_at text.now ≡ Class.Letter }
    ensures { GivesPiece text.now result }
{
    let length = longest_word(text)?;
    let kind = kind_of_word(&text[..length]);
    Some(Piece {
        sort: Sort::Token(kind),
        length,
    })
}

/// The longest piece at the front of `text` (JLS 3.2).
pub(crate) fn longest_piece(text: &[u8]) -> Option<Piece>
    ensures { GivesPiece text.now result }
{
    match class_at(text) {
        Class::End => None,
        Class::WhiteSpace => Some(white_space(text)),
        Class::Slash => comment_or_operator(text),
        Class::Digit => number(text),
        Class::Point => number_or_point(text),
        Class::Quote => character(text),
        Class::DoubleQuote => string(text),
        Class::Letter => word(text),
        Class::Other => operator(text),
    }
}
