ghost use Rattle.std.specs.Prelude.{◌≡◌, ◌<◌, ◌↔◌, IsTrue, length, map, IfOk};
ghost use Rattle.std.specs.Str.{IsUtf8};
ghost use Rattle.rf_rtree.specs.Accesses.{has_access_words};
ghost use Rattle.rf_rparse.specs.Answers as spec;
ghost use Rattle.rf_rparse.specs.Answers.{IsAnswer, IsParsed};
ghost use Rattle.rf_rparse.specs.Words.{shown};

use crate::course::Course;
use rf_rlex::{Placed, lex};
use rf_rtree::RuleProg;
use rf_text::Memory;
use std::alloc::Global;

/// Why a file is no program.
#[derive(Clone, Copy, Debug, PartialEq, Eq)]
pub enum RuleErr {
    /// The line of the first token that can't go on, or the last line where the text ends too early.
    Syntax { line: u32 },
    Memory,
}

impl From<Memory> for RuleErr {
    ghost use Rattle.std.specs.Prelude.{◌≡◌};
    ghost use Rattle.rf_rparse.specs.declared.reader.RuleErr.TheVariants.{Memory as NoMemory};

    ghost from_gives = { λ _ error. error ≡ NoMemory };

    fn from(_refused: Memory) -> RuleErr {
        RuleErr::Memory
    }
}

/// What tokens are.
#[derive(Drop)]
pub enum Answer {
    Program(RuleProg),
    /// The place of the first token that can't go on, or the number of tokens where they end too early.
    Fault(usize),
}

fn read(alloc: Global, toks: &[Placed]) -> Result<Answer, Memory>
    ensures { IfOk result (λ answer. IsAnswer (map shown toks.now) answer) }
{
    let mut course = Course::new(alloc);
    for (at, tok) in toks.iter().enumerate() {
        match course.with(alloc, tok)? {
            Some(next) => course = next,
            None => return Ok(Answer::Fault(at)),
        }
    }
    if !course.is_whole() {
        return Ok(Answer::Fault(toks.len()));
    }
    Ok(Answer::Program(RuleProg {
        items: course.into_items(),
    }))
}

#[tactic(auto, using(crate::proofs::LineLemmas::last_line_next, crate::proofs::LineLemmas::last_line_end))]
fn last_line(bytes: &[u8]) -> u32
    requires { length bytes.now < 4294967295 }
    ensures { result ≡ spec.last_line bytes.now }
{
    let mut line: u32 = 1;
    let mut rest = bytes;
    while let [byte, more @ ..] = rest {
        if *byte == b'\n' {
            line += 1;
        }
        rest = more;
    }
    line
}

/// The line of the token at a place, or the last line where there is none.
fn line_of(toks: &[Placed], at: usize, bytes: &[u8]) -> u32
    requires { length bytes.now < 4294967295 }
    ensures { result ≡ spec.line_of toks.now at bytes.now }
{
    match toks.get(at) {
        Some(tok) => tok.line,
        None => last_line(bytes),
    }
}

fn is_utf8(bytes: &[u8]) -> bool
    ensures { IsTrue result ↔ IsUtf8 bytes.now }
{
    match str::from_utf8(bytes) {
        Ok(_) => true,
        Err(_) => false,
    }
}

/// The program that a rule file is.
pub fn parse_rules(alloc: Global, bytes: &[u8]) -> Result<RuleProg, RuleErr>
    requires { length bytes.now < 4294967295 }
    ensures parsed { IsParsed bytes.now result }
    ensures access_words { IfOk result (λ prog. IsTrue (has_access_words prog)) }
{
    if !is_utf8(bytes) {
        return Err(RuleErr::Syntax { line: 1 });
    }
    let toks = lex(alloc, bytes)?;
    match read(alloc, toks.as_slice())? {
        Answer::Program(prog) => Ok(prog),
        Answer::Fault(at) => Err(RuleErr::Syntax {
            line: line_of(toks.as_slice(), at, bytes),
        }),
    }
}
