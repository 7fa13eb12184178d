ghost use Rattle.std.specs.Prelude.{◌≡◌, max, IfOk};
ghost use Rattle.rf_jexpr.specs.Gives.{IsAttempt, IsPair, IsPairFound};
ghost use Rattle.rf_jexpr.specs.Made.{IsGrown, unboxed};

use crate::ParseErr;
use rf_jmake::put;
use rf_jtree::{Many, Tok};
use rf_text::{List, Memory};
use std::alloc::Global;

/// What was read of the tokens, and the number of the token behind it.
#[derive(Drop)]
pub struct Taken<T> {
    pub item: T,
    pub end: usize,
}

/// What was read of the tokens, the number of the token behind it, and how deep it is.
#[derive(Drop)]
pub struct Found<T> {
    pub tree: T,
    pub end: usize,
    pub depth: usize,
}

/// A part that may be left out: that it isn't there is no error.
pub fn attempt<T>(tried: Result<T, ParseErr>) -> Result<Option<T>, Memory>
    ensures { IsAttempt tried result }
{
    match tried {
        Ok(found) => Ok(Some(found)),
        Err(ParseErr::NoTree) => Ok(None),
        Err(ParseErr::Memory) => Err(Memory),
    }
}

impl<T: Drop> Taken<T> {
    /// A part that may be left out, where it stands.
    pub fn there(self) -> Taken<Option<T>>
        ensures { result ≡ record { item = Some self.item; end = self.end } }
    {
        Taken {
            item: Some(self.item),
            end: self.end,
        }
    }
}

impl<T: Drop> Taken<Option<T>> {
    /// A part that may be left out, where it doesn't stand at this place.
    pub fn left_out(at: usize) -> Taken<Option<T>>
        ensures { result ≡ record { item = None; end = at } }
    {
        Taken {
            item: None,
            end: at,
        }
    }
}

impl<T: Drop> Found<T> {
    /// A part that may be left out, where it stands.
    pub fn there(self) -> Found<Option<T>>
        ensures { result ≡ record { tree = Some self.tree; end = self.end; depth = self.depth } }
    {
        Found {
            tree: Some(self.tree),
            end: self.end,
            depth: self.depth,
        }
    }
}

impl<T: Drop> Found<Option<T>> {
    /// A part that may be left out, where it doesn't stand at this place.
    pub fn left_out(at: usize) -> Found<Option<T>>
        ensures { result ≡ record { tree = None; end = at; depth = 0 } }
    {
        Found {
            tree: None,
            end: at,
            depth: 0,
        }
    }
}

/// What was read, as a pair with what stands before it: so no part is in hand while the next one is read.
pub fn pair<A: Drop, B: Drop>(
    next: Result<Taken<B>, ParseErr>,
    first: A,
) -> Result<Taken<(A, B)>, ParseErr>
    ensures { IsPair first next result }
{
    match next {
        Ok(found) => Ok(Taken {
            item: (first, found.item),
            end: found.end,
        }),
        Err(none) => Err(none),
    }
}

/// The same of what has a depth; the depth is that of what was read.
pub fn pair_found<A: Drop, B: Drop>(
    next: Result<Found<B>, ParseErr>,
    first: A,
) -> Result<Found<(A, B)>, ParseErr>
    ensures { IsPairFound first next result }
{
    match next {
        Ok(found) => Ok(Found {
            tree: (first, found.tree),
            end: found.end,
            depth: found.depth,
        }),
        Err(none) => Err(none),
    }
}

/// Parts in a row: the first, and the others with what stands between two of them.
pub fn many_of<T: Drop>(alloc: Global, first: T, rest: List<(Tok, T)>) -> Result<Many<T>, Memory>
    ensures first { IfOk result (λ list. list.first.value ≡ first) }
    ensures rest { IfOk result (λ list. list.rest ≡ rest) }
{
    Ok(Many {
        first: put(alloc, first)?,
        rest,
    })
}

/// One part more behind those that were read.
pub fn grown<T: Drop>(mut parts: Found<List<T>>, next: Found<T>) -> Result<Found<List<T>>, Memory>
    ensures { IfOk result (IsGrown parts next) }
{
    parts.tree.push(next.tree)?;
    Ok(Found {
        tree: parts.tree,
        end: next.end,
        depth: deeper(parts.depth, next.depth),
    })
}

/// One part more, from behind its pointer, behind those that were read.
pub fn joined<T: Drop>(
    mut parts: Found<List<T>>,
    next: Found<Box<T>>,
) -> Result<Found<List<T>>, Memory>
    ensures { IfOk result (IsGrown parts (unboxed next)) }
{
    parts.tree.push(Box::into_inner(next.tree))?;
    Ok(Found {
        tree: parts.tree,
        end: next.end,
        depth: deeper(parts.depth, next.depth),
    })
}

/// The greater of two depths.
pub fn deeper(first: usize, second: usize) -> usize
    ensures { result ≡ max first second }
{
    if first < second { second } else { first }
}
