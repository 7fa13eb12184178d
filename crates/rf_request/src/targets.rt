//! The target line.
ghost use Rattle.std.specs.Prelude.{◌≡◌, ◌≢◌, ◌↔◌, IsTrue, IfOk, MatchOption};
ghost use Rattle.rf_request.specs.Targets as spec;
ghost use Rattle.rf_request.specs.Targets.{verb_word, Fits, IsTargetOf};
ghost use Rattle.rf_request.specs.declared.targets.Verb.{Verb as VerbOf};

use crate::forms::{is_access, is_package};
use crate::sorts::sort_named;
use crate::{Sort, TargetLine};
use rf_jtree::is_identifier;
use rf_text::{Bytes, Memory};
use std::alloc::Global;

/// What a target line begins with.
#[derive(Clone, Copy, Debug, PartialEq, Eq)]
enum Verb {
    Rename,
    Move,
    Pull,
    Access,
}

fn verb_named(word: &[u8]) -> Option<Verb>
    ensures { MatchOption result
        ((verb : VerbOf) → word.now ≢ verb_word verb)
        (λ verb. word.now ≡ verb_word verb) }
{
    if word == b"rename".as_slice() {
        return Some(Verb::Rename);
    }
    if word == b"move".as_slice() {
        return Some(Verb::Move);
    }
    if word == b"pull".as_slice() {
        return Some(Verb::Pull);
    }
    if word == b"access".as_slice() {
        return Some(Verb::Access);
    }
    None
}

/// Whether an element of the sort may be changed so, to that value.
fn fits(verb: Verb, sort: Sort, value: &[u8]) -> bool
    ensures { IsTrue result ↔ Fits verb sort value.now }
{
    match verb {
        Verb::Rename => sort != Sort::Ctor && is_identifier(value),
        Verb::Move => sort == Sort::Typ && is_package(value),
        Verb::Pull => sort == Sort::Field || sort == Sort::Method,
        Verb::Access => sort != Sort::Local && is_access(value),
    }
}

fn target_line(verb: Verb, sort: Sort, name: Bytes, value: Bytes, line: u32) -> TargetLine
    ensures { result ≡ spec.target_line verb sort name value line }
{
    match verb {
        Verb::Rename => TargetLine::Rename {
            sort,
            name,
            value,
            line,
        },
        Verb::Move => TargetLine::Move {
            sort,
            name,
            value,
            line,
        },
        Verb::Pull => TargetLine::Pull {
            sort,
            name,
            value,
            line,
        },
        Verb::Access => TargetLine::Access {
            sort,
            name,
            value,
            line,
        },
    }
}

/// The target line that the words of line `number` are.
pub(crate) fn read_target(
    alloc: Global,
    words: &[Bytes],
    number: u32,
) -> Result<Option<TargetLine>, Memory>
    ensures { IfOk result (IsTargetOf number words.now) }
{
    let [verb, kind, name, to, value] = words else {
        return Ok(None);
    };
    let Some(verb) = verb_named(verb.as_slice()) else {
        return Ok(None);
    };
    let Some(sort) = sort_named(kind.as_slice()) else {
        return Ok(None);
    };
    if to.as_slice() != b"to".as_slice() || !fits(verb, sort, value.as_slice()) {
        return Ok(None);
    }
    let name = name.copy(alloc)?;
    let value = value.copy(alloc)?;
    Ok(Some(target_line(verb, sort, name, value, number)))
}
