ghost use Rattle.std.specs.Prelude.{◌≡◌, ◌≤◌, length, take, drop};
ghost use Rattle.std.specs.List.{take_while};
ghost use Rattle.rf_jtree.specs.Tokens.{Skips};
ghost use Rattle.rf_jlex.specs.Classes.{is_white};
ghost use Rattle.rf_jlex.specs.Cuts.{IsNext};
ghost use Rattle.rf_jlex.specs.Lexed.{IsLexed};

use crate::pieces::{Sort, longest_piece};
use rf_jtree::{Tok, TokKind, Toks};
use rf_text::{Bytes, List, Memory};
use std::alloc::Global;
use thiserror::Error;

/// Why bytes have no token list.
#[derive(Clone, Copy, Debug, PartialEq, Eq, Error)]
pub enum LexErr {
    /// At this byte, from 0, no token and no trivia begins; all before it is whole tokens and trivia.
    #[error("no token begins at byte {offset}")]
    Fault { offset: usize },
    #[error("out of memory")]
    Memory,
}

impl From<Memory> for LexErr {
    ghost use Rattle.std.specs.Prelude.{◌≡◌};
    ghost use Rattle.rf_jlex.specs.declared.lexer.LexErr.TheVariants.{Memory as NoMemory};

    ghost from_gives = { λ _ error. error ≡ NoMemory };

    fn from(_refused: Memory) -> LexErr {
        LexErr::Memory
    }
}

/// What follows the trivia at the front of a text.
#[derive(Clone, Copy, Debug, PartialEq, Eq)]
enum Next {
    /// A token, and its length in bytes.
    Token { kind: TokKind, length: usize },
    /// No token and no trivia.
    Nothing,
}

/// The trivia at the front of a text, the rest, and what the rest begins with.
#[derive(Clone, Copy, Debug)]
struct Front<'a> {
    lead: &'a [u8],
    rest: &'a [u8],
    next: Next,
}

fn is_white(byte: u8) -> bool
    ensures { result ≡ is_white byte }
{
    matches!(byte, b' ' | b'\t' | 0x0C | b'\r' | b'\n')
}

/// How many bytes of white space stand at the front of `text` (JLS 3.6).
fn white_length(text: &[u8]) -> usize
    ensures { result ≡ length (take_while is_white text.now) }
{
    text.iter().take_while(|byte| is_white(**byte)).count()
}

/// The offset behind the white space that stands at this offset.
fn behind_white(text: &[u8], at: usize) -> usize
    requires { at ≤ length text.now }
    ensures within { result ≤ length text.now }
    ensures forth { at ≤ result }
    ensures skips { Skips text.now (take at text.now) (drop at text.now) → Skips text.now
        (take result text.now) (drop result text.now) }
{
    let rest = text.split_at(at).1;
    at + white_length(rest)
}

/// Cuts off the trivia at the front of `text`.
fn cut_trivia(text: &[u8]) -> Front<'_>
    ensures skips { Skips text.now result.lead.now result.rest.now }
    ensures next { IsNext result.rest.now result.next }
{
    let mut skipped = behind_white(text, 0);
    loop {
        let (lead, rest) = text.split_at(skipped);
        let Some(piece) = longest_piece(rest) else {
            return Front {
                lead,
                rest,
                next: Next::Nothing,
            };
        };
        if let Sort::Token(kind) = piece.sort {
            return Front {
                lead,
                rest,
                next: Next::Token {
                    kind,
                    length: piece.length,
                },
            };
        }
        skipped = behind_white(text, skipped + piece.length);
    }
}

/// The tokens of a file (JLS 3.2).
pub fn lex(alloc: Global, bytes: &[u8]) -> Result<Toks, LexErr>
    ensures { IsLexed bytes.now result }
{
    let mut list = List::new(alloc);
    let mut rest = bytes;
    loop {
        let front = cut_trivia(rest);
        let lead = Bytes::from_slice(alloc, front.lead)?;
        match front.next {
            Next::Token { kind, length } => {
                let (token, after) = front.rest.split_at(length);
                let text = Bytes::from_slice(alloc, token)?;
                list.push(Tok { kind, lead, text })?;
                rest = after;
            }
            Next::Nothing if front.rest.is_empty() => return Ok(Toks { list, tail: lead }),
            Next::Nothing => return Err(LexErr::Fault {
                offset: bytes.len() - front.rest.len(),
            }),
        }
    }
}
