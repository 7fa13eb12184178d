//! The lines of a text that aren't skipped.
ghost use Rattle.std.specs.Prelude.{◌≡◌, ◌<◌, ◌≤◌, ◌+◌, ◌^◌, [], ◌∷◌, length, IfOk, MatchOption};
ghost use Rattle.rf_request.specs.Requests as spec;
ghost use Rattle.rf_request.specs.Requests.{lines_from};
ghost use Rattle.rf_request.specs.Words.{words_of};

use crate::cuts::{first_line, first_word};
use rf_text::{Bytes, List, Memory};
use std::alloc::Global;

/// A line with its number and words, and the text behind it.
#[derive(Drop)]
pub(crate) struct Line<'a> {
    pub number: u32,
    pub words: List<Bytes>,
    pub rest: &'a [u8],
}

fn words_of(alloc: Global, line: &[u8]) -> Result<List<Bytes>, Memory>
    ensures { IfOk result (λ words. words ≡ words_of line.now) }
{
    let mut words = List::new(alloc);
    let mut rest = line;
    while let Some(cut) = first_word(rest) {
        words.push(Bytes::from_slice(alloc, cut.word)?)?;
        rest = cut.rest;
    }
    Ok(words)
}

fn begins_comment(word: &[u8]) -> bool
    ensures { result ≡ spec.begins_comment word.now }
{
    matches!(word, [b'#', ..])
}

fn is_read(words: &[Bytes]) -> bool
    ensures { result ≡ spec.is_read words.now }
{
    match words {
        [] => false,
        [word, ..] => !begins_comment(word.as_slice()),
    }
}

/// The first line that isn't skipped, where the text begins with line `number`.
pub(crate) fn next_line(alloc: Global, text: &[u8], number: u32) -> Result<Option<Line<'_>>, Memory>
    requires { number + length text.now < 2 ^ 32 }
    ensures lines { IfOk result (λ found. MatchOption found
        (lines_from number text.now ≡ [])
        (λ line. lines_from number text.now
        ≡ (line.number, line.words) ∷ lines_from (line.number + 1) line.rest.now)) }
    ensures within { IfOk result (λ found. MatchOption found (Unit {0})
        (λ line. line.number + 1 + length line.rest.now ≤ number + length text.now)) }
    ensures shorter { IfOk result (λ found. MatchOption found (Unit {0})
        (λ line. length line.rest.now < length text.now)) }
{
    let mut rest = text;
    let mut at = number;
    while !rest.is_empty() {
        let cut = first_line(rest);
        let words = words_of(alloc, cut.line)?;
        if is_read(words.as_slice()) {
            return Ok(Some(Line {
                number: at,
                words,
                rest: cut.rest,
            }));
        }
        at += 1;
        rest = cut.rest;
    }
    Ok(None)
}
