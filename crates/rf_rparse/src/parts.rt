//! What follows the first word of `elem.prop` and of `old(elem.prop)`.
ghost use Rattle.std.specs.Prelude.{◌≡◌, IfOk};
ghost use Rattle.rf_rparse.specs.Parts as spec;
ghost use Rattle.rf_rparse.specs.Words.{shown};

use crate::next::Next;
use crate::words::{name_in, prop_in};
use rf_rlex::{Placed, Tok};
use rf_rtree::{RTerm, Word};
use rf_text::Memory;
use std::alloc::Global;

#[derive(Drop)]
pub enum Part {
    /// Behind `elem .`.
    Prop { elem: Word },
    /// Behind `old`, and behind each further token of it.
    Old { line: u32 },
    OldLeft { line: u32 },
    OldElem { line: u32, elem: Word },
    OldDot { line: u32, elem: Word },
    OldProp { line: u32, elem: Word, prop: Word },
}

fn step_prop(alloc: Global, tok: &Placed, elem: Word) -> Result<Next<Part, RTerm>, Memory>
    ensures { IfOk result (λ next. next ≡ spec.step_part (shown tok.now) (Part.Prop elem)) }
{
    let Some(prop) = prop_in(alloc, tok)? else {
        return Ok(Next::No);
    };
    Ok(Next::Whole(RTerm::Prop { elem, prop }))
}

fn step_old_left(alloc: Global, tok: &Placed, line: u32) -> Result<Next<Part, RTerm>, Memory>
    ensures { IfOk result (λ next. next ≡ spec.step_part (shown tok.now) (Part.OldLeft line)) }
{
    let Some(elem) = name_in(alloc, tok)? else {
        return Ok(Next::No);
    };
    Ok(Next::More(Part::OldElem { line, elem }))
}

fn step_old_dot(
    alloc: Global,
    tok: &Placed,
    line: u32,
    elem: Word,
) -> Result<Next<Part, RTerm>, Memory>
    ensures { IfOk result (λ next. next ≡ spec.step_part (shown tok.now) (Part.OldDot line elem)) }
{
    let Some(prop) = prop_in(alloc, tok)? else {
        return Ok(Next::No);
    };
    Ok(Next::More(Part::OldProp { line, elem, prop }))
}

pub fn step_part(alloc: Global, tok: &Placed, part: Part) -> Result<Next<Part, RTerm>, Memory>
    ensures { IfOk result (λ next. next ≡ spec.step_part (shown tok.now) part) }
{
    match part {
        Part::Prop { elem } => step_prop(alloc, tok, elem),
        Part::Old { line } => match &tok.tok {
            Tok::Left => Ok(Next::More(Part::OldLeft { line })),
            _ => Ok(Next::No),
        },
        Part::OldLeft { line } => step_old_left(alloc, tok, line),
        Part::OldElem { line, elem } => match &tok.tok {
            Tok::Dot => Ok(Next::More(Part::OldDot { line, elem })),
            _ => Ok(Next::No),
        },
        Part::OldDot { line, elem } => step_old_dot(alloc, tok, line, elem),
        Part::OldProp { line, elem, prop } => match &tok.tok {
            Tok::Right => Ok(Next::Whole(RTerm::Old { line, elem, prop })),
            _ => Ok(Next::No),
        },
    }
}
