ghost use Rattle.std.specs.Prelude.{◌≤◌, IfOk, IsTrue, length};
ghost use Rattle.rf_rtree.specs.Accesses.{has_access_words};
ghost use Rattle.rf_rparse.specs.Answers.{Reads};
ghost use Rattle.rf_rules.specs.RuleFiles.{IsRulesAnswer, MOST_BYTES};

use crate::reports::{kind_fault, syntax, too_large};
use rf_kind::{KindErr, check, java_lang};
use rf_rparse::{RuleErr, parse_rules};
use rf_rprint::print_rules;
use rf_rtree::RuleProg;
use rf_text::{Bytes, Memory};
use std::alloc::Global;

/// What is to be put for a rule file, with the lines.
#[derive(Drop)]
pub enum RulesAnswer {
    /// The plain print of its program.
    Printed(Bytes),
    /// It has no reading, or its program has a kind fault: the line that says where.
    Bad(Bytes),
    /// It has more than 65,536 bytes: the line that says how many.
    TooLarge(Bytes),
}

/// The answer for a file of at most so many bytes that reads to a program.
fn checked(alloc: Global, path: &[u8], bytes: &[u8], prog: &RuleProg) -> Result<RulesAnswer, Memory>
    requires few { length bytes.now ≤ MOST_BYTES }
    requires reads { Reads bytes.now prog.now }
    requires words { IsTrue (has_access_words prog.now) }
    ensures { IfOk result (IsRulesAnswer path.now bytes.now) }
{
    let lang = java_lang(alloc)?;
    match check(alloc, prog, &lang) {
        Ok(checked) => {
            let text = print_rules(alloc, &checked.prog)?;
            Ok(RulesAnswer::Printed(text))
        }
        Err(KindErr::Fault(fault)) => {
            let line = kind_fault(alloc, path, &fault)?;
            Ok(RulesAnswer::Bad(line))
        }
        Err(KindErr::Memory) => Err(Memory),
    }
}

/// Reads the bytes of the rule file at `path`, checks its program in the language of Java projects and prints it, or says
/// what is wrong with it, by its path as it was given.
pub fn rules_answer(alloc: Global, path: &[u8], bytes: &[u8]) -> Result<RulesAnswer, Memory>
    ensures { IfOk result (IsRulesAnswer path.now bytes.now) }
{
    if bytes.len() > 65_536 {
        let line = too_large(alloc, bytes.len())?;
        return Ok(RulesAnswer::TooLarge(line));
    }
    match parse_rules(alloc, bytes) {
        Ok(prog) => checked(alloc, path, bytes, &prog),
        Err(RuleErr::Syntax { line }) => {
            let line = syntax(alloc, path, line)?;
            Ok(RulesAnswer::Bad(line))
        }
        Err(RuleErr::Memory) => Err(Memory),
    }
}
