//! What the lines behind the target line ask for together.
ghost use Rattle.std.specs.Prelude.{◌≡◌, ◌<◌, ◌-◌, ◌^◌, IfOk, length, [], ◌++◌};
ghost use Rattle.std.specs.List.{flat_map};
ghost use Rattle.rf_request.specs.Opened as spec;

use crate::choices::{Choice, ChoiceLine};
use crate::{Options, Sort};
use rf_text::{Bytes, List, Memory, Names};
use std::alloc::Global;

fn is_among(word: &[u8], words: &[Bytes]) -> bool
    ensures { result ≡ spec.is_among word.now words.now }
{
    let mut rest = words;
    while let [other, more @ ..] = rest {
        if other.as_slice() == word {
            return true;
        }
        rest = more;
    }
    false
}

/// The words of the `allow` line, none where there is no such line.
fn allowed(lines: &[ChoiceLine]) -> &[Bytes]
    ensures { result.now ≡ spec.allowed_of lines.now }
{
    let mut rest = lines;
    while let [line, more @ ..] = rest {
        if let Choice::Allow(words) = &line.choice {
            return words.as_slice();
        }
        rest = more;
    }
    &[]
}

/// Each word once, in the order in which they come first.
fn each_once(alloc: Global, words: &[Bytes]) -> Result<List<Bytes>, Memory>
    ensures { IfOk result (λ once. once ≡ spec.with_new [] words.now) }
{
    let mut names = Names::new(alloc);
    let mut once = List::new(alloc);
    let mut rest = words;
    while let [word, more @ ..] = rest {
        if names.find(word.as_slice()).is_none() {
            if names.len() >= u32::MAX as usize {
                return Err(Memory);
            }
            names.intern(alloc, word.as_slice())?;
            once.push(word.copy(alloc)?)?;
        }
        rest = more;
    }
    Ok(once)
}

fn spares(alloc: Global, lines: &[ChoiceLine]) -> Result<List<Bytes>, Memory>
    ensures { IfOk result (λ spares. spares ≡ spec.spares_of lines.now) }
{
    let mut rest = lines;
    while let [line, more @ ..] = rest {
        if let Choice::Spare(words) = &line.choice {
            return each_once(alloc, words.as_slice());
        }
        rest = more;
    }
    Ok(List::new(alloc))
}

fn kept(alloc: Global, lines: &[ChoiceLine]) -> Result<List<(Sort, Bytes, u32)>, Memory>
    ensures { IfOk result (λ kept. kept ≡ flat_map spec.kept_by lines.now) }
{
    let mut kept = List::new(alloc);
    let mut rest = lines;
    while let [line, more @ ..] = rest {
        if let Choice::Keep(sort, name) = &line.choice {
            kept.push((*sort, name.copy(alloc)?, line.number))?;
        }
        rest = more;
    }
    Ok(kept)
}

fn rules(alloc: Global, lines: &[ChoiceLine]) -> Result<List<(Bytes, u32)>, Memory>
    ensures { IfOk result (λ rules. rules ≡ flat_map spec.rules_by lines.now) }
{
    let mut rules = List::new(alloc);
    let mut rest = lines;
    while let [line, more @ ..] = rest {
        if let Choice::Rules(file) = &line.choice {
            rules.push((file.copy(alloc)?, line.number))?;
        }
        rest = more;
    }
    Ok(rules)
}

/// How many decisions may be counted.
pub(crate) fn decisions_of(lines: &[ChoiceLine]) -> u64
    ensures { result ≡ spec.decisions_of lines.now }
{
    let mut rest = lines;
    while let [line, more @ ..] = rest {
        if let Choice::Decisions(number) = &line.choice {
            return *number;
        }
        rest = more;
    }
    1000
}

pub(crate) fn options_of(alloc: Global, lines: &[ChoiceLine]) -> Result<Options, Memory>
    ensures { IfOk result (λ options. options ≡ spec.options_of lines.now) }
{
    let allowed = allowed(lines);
    Ok(Options {
        names: is_among(b"names", allowed),
        access: is_among(b"access", allowed),
        owners: is_among(b"owners", allowed),
        imports: is_among(b"imports", allowed),
        spares: spares(alloc, lines)?,
        keep: kept(alloc, lines)?,
        rules: rules(alloc, lines)?,
    })
}
