ghost use Rattle.std.specs.Prelude.{◌≡◌, ◌<◌, ◌+◌, ◌^◌, ◌↔◌, IsTrue, length};
ghost use Rattle.std.specs.Str.{IsUtf8};
ghost use Rattle.rf_request.specs.Choices.{is_repeated};
ghost use Rattle.rf_request.specs.Choices as spec;
ghost use Rattle.rf_request.specs.Requests.{ChoicesAnswer, IsAnswer, lines_from};

use crate::choice_reader::read_choice;
use crate::choices::{Choice, ChoiceLine};
use crate::lines::next_line;
use crate::opened::{decisions_of, options_of};
use crate::targets::read_target;
use crate::{Options, Request, TargetLine};
use rf_text::{List, Memory};
use std::alloc::Global;
use std::str;

/// Why a text is no request.
#[derive(Clone, Copy, Debug, PartialEq, Eq)]
pub enum ReqErr {
    /// The first line without a reading, 0 where there is no target line, 1 where the text isn't UTF-8.
    Syntax { line: u32 },
    Memory,
}

impl From<Memory> for ReqErr {
    ghost use Rattle.std.specs.Prelude.{◌≡◌};
    ghost use Rattle.rf_request.specs.declared.reader.ReqErr.TheVariants.{Memory as NoMemory};

    ghost from_gives = { λ _ error. error ≡ NoMemory };

    fn from(_refused: Memory) -> ReqErr {
        ReqErr::Memory
    }
}

fn is_utf8(bytes: &[u8]) -> bool
    ensures { IsTrue result ↔ IsUtf8 bytes.now }
{
    match str::from_utf8(bytes) {
        Ok(_) => true,
        Err(_) => false,
    }
}

fn repeats(one: &Choice, other: &Choice) -> bool
    ensures { result ≡ spec.repeats one.now other.now }
{
    matches!(
        (one, other),
        (Choice::Allow(_), Choice::Allow(_))
            | (Choice::Spare(_), Choice::Spare(_))
            | (Choice::Decisions(_), Choice::Decisions(_))
    )
}

fn is_repeated(choice: &Choice, lines: &[ChoiceLine]) -> bool
    ensures { result ≡ spec.is_repeated choice.now lines.now }
{
    let mut rest = lines;
    while let [line, more @ ..] = rest {
        if repeats(&line.choice, choice) {
            return true;
        }
        rest = more;
    }
    false
}

/// The lines behind the target line, where the text behind it begins with line `number`.
fn read_choices(alloc: Global, text: &[u8], number: u32) -> Result<List<ChoiceLine>, ReqErr>
    requires { number + length text.now < 2 ^ 32 }
    ensures { ChoicesAnswer (lines_from number text.now) result }
{
    let mut choices = List::new(alloc);
    let mut rest = text;
    let mut at = number;
    while let Some(line) = next_line(alloc, rest, at)? {
        let Some(choice) = read_choice(alloc, line.words.as_slice())? else {
            return Err(ReqErr::Syntax { line: line.number });
        };
        if is_repeated(&choice, choices.as_slice()) {
            return Err(ReqErr::Syntax { line: line.number });
        }
        choices.push(ChoiceLine {
            number: line.number,
            choice,
        })?;
        rest = line.rest;
        at = line.number + 1;
    }
    Ok(choices)
}

/// The request that a text is.
pub fn read_request(alloc: Global, bytes: &[u8]) -> Result<Request, ReqErr>
    requires { length bytes.now < 4294967295 }
    ensures { IsAnswer bytes.now result }
{
    if !is_utf8(bytes) {
        return Err(ReqErr::Syntax { line: 1 });
    }
    let Some(first) = next_line(alloc, bytes, 1)? else {
        return Err(ReqErr::Syntax { line: 0 });
    };
    let Some(target) = read_target(alloc, first.words.as_slice(), first.number)? else {
        return Err(ReqErr::Syntax { line: first.number });
    };
    let choices = read_choices(alloc, first.rest, first.number + 1)?;
    let options = options_of(alloc, choices.as_slice())?;
    Ok(Request {
        target,
        options,
        decisions: decisions_of(choices.as_slice()),
    })
}
