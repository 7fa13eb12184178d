//! Predicates and comparisons.
ghost use Rattle.std.specs.Prelude.{◌≡◌, ◌∷◌, [], ◌++◌, IfOk};
ghost use Rattle.rf_rparse.specs.Atoms as spec;
ghost use Rattle.rf_rparse.specs.Words.{shown, comp_in};

use crate::args::{Args, step_args};
use crate::next::Next;
use crate::parts::{Part, step_part};
use crate::words::{comp_in, word_at};
use rf_rlex::{Placed, Tok};
use rf_rtree::{Comp, RForm, RTerm, Word};
use rf_text::{Boxed, List, Memory};
use std::alloc::Global;

/// Which side of a comparison a term stands on.
#[derive(Drop)]
pub enum Side {
    Left,
    Right(RTerm, Comp),
}

#[derive(Drop)]
pub enum Atom {
    /// Behind a name at the front.
    Named(Word),
    Args(Args),
    Part(Side, Part),
    /// Behind the left term.
    Compared(RTerm),
    /// Behind the sign.
    Right(RTerm, Comp),
    /// Behind a name on the right: it goes on with a dot, or has ended.
    RightNamed(RTerm, Comp, Word),
}

/// What an atom becomes with one more token.
pub type AtomNext = Next<Atom, Boxed<RForm>>;

/// The atom that begins with this token.
pub fn first_of_atom(alloc: Global, tok: &Placed) -> Result<Option<Atom>, Memory>
    ensures { IfOk result (λ atom. atom ≡ spec.first_of_atom (shown tok.now)) }
{
    match &tok.tok {
        Tok::Name(text) => {
            let name = word_at(alloc, text, tok.line)?;
            Ok(Some(Atom::Named(name)))
        }
        Tok::Old => Ok(Some(Atom::Part(Side::Left, Part::Old { line: tok.line }))),
        Tok::Access(text) => {
            let word = word_at(alloc, text, tok.line)?;
            Ok(Some(Atom::Compared(RTerm::Access(word))))
        }
        Tok::Text(text) => {
            let word = word_at(alloc, text, tok.line)?;
            Ok(Some(Atom::Compared(RTerm::Text(word))))
        }
        _ => Ok(None),
    }
}

fn with_comp(tok: &Placed, left: RTerm) -> AtomNext
    ensures { result ≡ spec.with_comp left (comp_in (shown tok.now)) }
{
    match comp_in(tok) {
        Some(comp) => Next::More(Atom::Right(left, comp)),
        None => Next::No,
    }
}

fn step_named(alloc: Global, tok: &Placed, name: Word) -> AtomNext
    ensures { result ≡ spec.step_atom (shown tok.now) (Atom.Named name) }
{
    match &tok.tok {
        Tok::Left => {
            let args = List::new(alloc);
            Next::More(Atom::Args(Args::Want { name, args }))
        }
        Tok::Dot => Next::More(Atom::Part(Side::Left, Part::Prop { elem: name })),
        _ => with_comp(tok, RTerm::Var(name)),
    }
}

fn step_in_args(alloc: Global, tok: &Placed, args: Args) -> Result<AtomNext, Memory>
    ensures { IfOk result (λ next. next ≡ spec.step_atom (shown tok.now) (Atom.Args args)) }
{
    match step_args(alloc, tok, args)? {
        Next::More(args) => Ok(Next::More(Atom::Args(args))),
        Next::Whole(ask) => {
            let form = Boxed::new(alloc, RForm::Pred(ask))?;
            Ok(Next::Whole(form))
        }
        Next::Held(_) | Next::No => Ok(Next::No),
    }
}

fn with_term(alloc: Global, side: Side, term: RTerm) -> Result<AtomNext, Memory>
    ensures { IfOk result (λ next. next ≡ spec.with_term side term) }
{
    match side {
        Side::Left => Ok(Next::More(Atom::Compared(term))),
        Side::Right(left, comp) => {
            let form = Boxed::new(alloc, RForm::Cmp(left, comp, term))?;
            Ok(Next::Whole(form))
        }
    }
}

fn step_in_part(alloc: Global, tok: &Placed, side: Side, part: Part) -> Result<AtomNext, Memory>
    ensures { IfOk result (λ next. next ≡ spec.step_atom (shown tok.now) (Atom.Part side part)) }
{
    match step_part(alloc, tok, part)? {
        Next::More(part) => Ok(Next::More(Atom::Part(side, part))),
        Next::Whole(term) => with_term(alloc, side, term),
        Next::Held(_) | Next::No => Ok(Next::No),
    }
}

fn step_right(alloc: Global, tok: &Placed, left: RTerm, comp: Comp) -> Result<AtomNext, Memory>
    ensures { IfOk result (λ next. next ≡ spec.step_atom (shown tok.now) (Atom.Right left comp)) }
{
    match first_of_atom(alloc, tok)? {
        Some(Atom::Named(name)) => Ok(Next::More(Atom::RightNamed(left, comp, name))),
        Some(Atom::Part(_, part)) => Ok(Next::More(Atom::Part(Side::Right(left, comp), part))),
        Some(Atom::Compared(term)) => with_term(alloc, Side::Right(left, comp), term),
        _ => Ok(Next::No),
    }
}

fn step_right_named(
    alloc: Global,
    tok: &Placed,
    left: RTerm,
    comp: Comp,
    name: Word,
) -> Result<AtomNext, Memory>
    ensures { IfOk result (λ next. next
        ≡ spec.step_atom (shown tok.now) (Atom.RightNamed left comp name)) }
{
    match &tok.tok {
        Tok::Dot => Ok(Next::More(Atom::Part(Side::Right(left, comp), Part::Prop { elem: name }))),
        _ => {
            let form = Boxed::new(alloc, RForm::Cmp(left, comp, RTerm::Var(name)))?;
            Ok(Next::Held(form))
        }
    }
}

pub fn step_atom(alloc: Global, tok: &Placed, atom: Atom) -> Result<AtomNext, Memory>
    ensures { IfOk result (λ next. next ≡ spec.step_atom (shown tok.now) atom) }
{
    match atom {
        Atom::Named(name) => Ok(step_named(alloc, tok, name)),
        Atom::Args(args) => step_in_args(alloc, tok, args),
        Atom::Part(side, part) => step_in_part(alloc, tok, side, part),
        Atom::Compared(left) => Ok(with_comp(tok, left)),
        Atom::Right(left, comp) => step_right(alloc, tok, left, comp),
        Atom::RightNamed(left, comp, name) => step_right_named(alloc, tok, left, comp, name),
    }
}
