//! The lines behind the target line, word by word.
ghost use Rattle.std.specs.Prelude.{◌≡◌, ◌∷◌, IfOk, codes};
ghost use Rattle.rf_request.specs.Choices.{IsChoiceOf};

use crate::choices::Choice;
use crate::forms::{are_allowed, are_identifiers};
use crate::numbers::decisions_of;
use crate::sorts::sort_named;
use rf_text::{Bytes, List, Memory};
use std::alloc::Global;

fn copies(alloc: Global, words: &[Bytes]) -> Result<List<Bytes>, Memory>
    ensures { IfOk result (λ copies. copies ≡ words.now) }
{
    let mut copies = List::new(alloc);
    for word in words {
        copies.push(word.copy(alloc)?)?;
    }
    Ok(copies)
}

fn allow(alloc: Global, words: &[Bytes]) -> Result<Option<Choice>, Memory>
    ensures { IfOk result (IsChoiceOf (codes "allow" ∷ words.now)) }
{
    if words.is_empty() || !are_allowed(words) {
        return Ok(None);
    }
    let words = copies(alloc, words)?;
    Ok(Some(Choice::Allow(words)))
}

fn spare(alloc: Global, words: &[Bytes]) -> Result<Option<Choice>, Memory>
    ensures { IfOk result (IsChoiceOf (codes "spare" ∷ words.now)) }
{
    if words.is_empty() || !are_identifiers(words) {
        return Ok(None);
    }
    let words = copies(alloc, words)?;
    Ok(Some(Choice::Spare(words)))
}

fn decisions(words: &[Bytes]) -> Option<Choice>
    ensures { IsChoiceOf (codes "decisions" ∷ words.now) result }
{
    let [word] = words else {
        return None;
    };
    match decisions_of(word.as_slice()) {
        Some(number) => Some(Choice::Decisions(number)),
        None => None,
    }
}

fn keep(alloc: Global, words: &[Bytes]) -> Result<Option<Choice>, Memory>
    ensures { IfOk result (IsChoiceOf (codes "keep" ∷ words.now)) }
{
    let [kind, name] = words else {
        return Ok(None);
    };
    let Some(sort) = sort_named(kind.as_slice()) else {
        return Ok(None);
    };
    let name = name.copy(alloc)?;
    Ok(Some(Choice::Keep(sort, name)))
}

fn rules(alloc: Global, words: &[Bytes]) -> Result<Option<Choice>, Memory>
    ensures { IfOk result (IsChoiceOf (codes "rules" ∷ words.now)) }
{
    let [file] = words else {
        return Ok(None);
    };
    let file = file.copy(alloc)?;
    Ok(Some(Choice::Rules(file)))
}

/// What the words of a line behind the target line say.
pub(crate) fn read_choice(alloc: Global, words: &[Bytes]) -> Result<Option<Choice>, Memory>
    ensures { IfOk result (IsChoiceOf words.now) }
{
    let [first, more @ ..] = words else {
        return Ok(None);
    };
    let first = first.as_slice();
    if first == b"allow".as_slice() {
        return allow(alloc, more);
    }
    if first == b"spare".as_slice() {
        return spare(alloc, more);
    }
    if first == b"decisions".as_slice() {
        return Ok(decisions(more));
    }
    if first == b"keep".as_slice() {
        return keep(alloc, more);
    }
    if first == b"rules".as_slice() {
        return rules(alloc, more);
    }
    Ok(None)
}
