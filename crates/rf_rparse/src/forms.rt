//! Formulas.
ghost use Rattle.std.specs.Prelude.{◌≡◌, ◌∷◌, [], Some, None, IfOk};
ghost use Rattle.std.specs.Option.{option_map};
ghost use Rattle.rf_rtree.specs.Grammar.{quant_tree};
ghost use Rattle.rf_rparse.specs.Atoms as atoms;
ghost use Rattle.rf_rparse.specs.Forms as spec;
ghost use Rattle.rf_rparse.specs.Heads as heads;
ghost use Rattle.rf_rparse.specs.Frames.{done, join_or, join_implies, either_of, whole_of};
ghost use Rattle.rf_rparse.specs.Words.{shown};

use crate::atoms::{Atom, first_of_atom, step_atom};
use crate::frames::{Frame, Stack};
use crate::heads::{Head, HeadState, empty_head, step_head};
use crate::next::Next;
use rf_rlex::{Placed, Tok};
use rf_rtree::{Quant, RForm};
use rf_text::{Boxed, Memory};
use std::alloc::Global;

/// How far a formula has come.
#[derive(Drop)]
pub enum Mode {
    /// An operand is wanted.
    Want,
    /// An operand has come.
    Got(Boxed<RForm>),
    Atom(Atom),
    /// Behind `all`, or `some` where the flag isn't set.
    Head(bool, HeadState),
    /// Behind the colon of a quantifier.
    Open(bool, Head),
    /// The formula and the word `end` have come.
    End(Boxed<RForm>),
}

/// An operand is complete.
fn done(alloc: Global, operand: Boxed<RForm>, stack: &mut Stack) -> Result<Boxed<RForm>, Memory>
    ensures { IfOk result (λ form. (form, stack.new) ≡ done operand stack.old) }
{
    let mut form = operand;
    while stack.take_not() {
        form = Boxed::new(alloc, RForm::Not(form))?;
    }
    match stack.take_and()? {
        Some(left) => Boxed::new(alloc, RForm::And(left, form)),
        None => Ok(form),
    }
}

/// An operand is complete, and an operand of `or` with it.
fn either(alloc: Global, operand: Boxed<RForm>, stack: &mut Stack) -> Result<Boxed<RForm>, Memory>
    ensures { IfOk result (λ form. (form, stack.new) ≡ either_of (done operand stack.old)) }
{
    let form = done(alloc, operand, stack)?;
    match stack.take_or()? {
        Some(left) => Boxed::new(alloc, RForm::Or(left, form)),
        None => Ok(form),
    }
}

/// An operand is complete, and the formula with it.
fn whole(alloc: Global, operand: Boxed<RForm>, stack: &mut Stack) -> Result<Boxed<RForm>, Memory>
    ensures { IfOk result (λ form. (form, stack.new)
        ≡ whole_of (either_of (done operand stack.old))) }
{
    let mut form = either(alloc, operand, stack)?;
    while let Some(left) = stack.take_implies()? {
        form = Boxed::new(alloc, RForm::Implies(left, form))?;
    }
    Ok(form)
}

fn quant(alloc: Global, every: bool, head: Head, body: Boxed<RForm>) -> Result<Boxed<RForm>, Memory>
    ensures { IfOk result (λ form. form ≡ quant_tree every head.vars head.asks body) }
{
    let Head { vars, asks } = head;
    let quant = Quant { vars, asks, body };
    if every {
        Boxed::new(alloc, RForm::Every(quant))
    } else {
        Boxed::new(alloc, RForm::Exists(quant))
    }
}

/// What a formula in parentheses becomes, by what stands on top.
fn closed(
    alloc: Global,
    form: Boxed<RForm>,
    top: Option<Frame>,
) -> Result<Option<Boxed<RForm>>, Memory>
    ensures { IfOk result (λ it. it ≡ spec.closed form top) }
{
    match top {
        Some(Frame::Paren) => Ok(Some(form)),
        Some(Frame::Quant(every, head)) => {
            let form = quant(alloc, every, head, form)?;
            Ok(Some(form))
        }
        _ => Ok(None),
    }
}

fn close(alloc: Global, operand: Boxed<RForm>, stack: &mut Stack) -> Result<Option<Mode>, Memory>
    ensures { IfOk result (λ it. option_map (λ mode. (mode, stack.new)) it
        ≡ spec.close (whole_of (either_of (done operand stack.old)))) }
{
    let form = whole(alloc, operand, stack)?;
    let top = stack.pop();
    match closed(alloc, form, top)? {
        Some(form) => Ok(Some(Mode::Got(form))),
        None => Ok(None),
    }
}

fn end(alloc: Global, operand: Boxed<RForm>, stack: &mut Stack) -> Result<Option<Mode>, Memory>
    ensures { IfOk result (λ it. option_map (λ mode. (mode, stack.new)) it
        ≡ spec.end (whole_of (either_of (done operand stack.old)))) }
{
    let form = whole(alloc, operand, stack)?;
    match stack.pop() {
        None => Ok(Some(Mode::End(form))),
        Some(_) => Ok(None),
    }
}

fn step_got(
    alloc: Global,
    tok: &Placed,
    operand: Boxed<RForm>,
    stack: &mut Stack,
) -> Result<Option<Mode>, Memory>
    ensures { IfOk result (λ it. option_map (λ mode. (mode, stack.new)) it
        ≡ spec.step_got (shown tok.now) (done operand stack.old)) }
{
    match &tok.tok {
        Tok::And => {
            let left = done(alloc, operand, stack)?;
            stack.push(Frame::And(left))?;
            Ok(Some(Mode::Want))
        }
        Tok::Or => {
            let left = either(alloc, operand, stack)?;
            stack.push(Frame::Or(left))?;
            Ok(Some(Mode::Want))
        }
        Tok::Implies => {
            let left = either(alloc, operand, stack)?;
            stack.push(Frame::Implies(left))?;
            Ok(Some(Mode::Want))
        }
        Tok::Right => close(alloc, operand, stack),
        Tok::End => end(alloc, operand, stack),
        _ => Ok(None),
    }
}

fn truth(alloc: Global, value: bool) -> Result<Option<Mode>, Memory>
    ensures { IfOk result (λ it. it ≡ Some (Mode.Got (RForm.Truth value))) }
{
    let form = Boxed::new(alloc, RForm::Truth(value))?;
    Ok(Some(Mode::Got(form)))
}

fn step_want(alloc: Global, tok: &Placed, stack: &mut Stack) -> Result<Option<Mode>, Memory>
    ensures { IfOk result (λ it. option_map (λ mode. (mode, stack.new)) it
        ≡ spec.step_want (shown tok.now) stack.old) }
{
    match &tok.tok {
        Tok::Not => {
            stack.push(Frame::Not)?;
            Ok(Some(Mode::Want))
        }
        Tok::Left => {
            stack.push(Frame::Paren)?;
            Ok(Some(Mode::Want))
        }
        Tok::All => Ok(Some(Mode::Head(true, empty_head(alloc)))),
        Tok::Some => Ok(Some(Mode::Head(false, empty_head(alloc)))),
        Tok::True => truth(alloc, true),
        Tok::False => truth(alloc, false),
        _ => match first_of_atom(alloc, tok)? {
            Some(atom) => Ok(Some(Mode::Atom(atom))),
            None => Ok(None),
        },
    }
}

fn step_in_atom(
    alloc: Global,
    tok: &Placed,
    atom: Atom,
    stack: &mut Stack,
) -> Result<Option<Mode>, Memory>
    ensures { IfOk result (λ it. option_map (λ mode. (mode, stack.new)) it
        ≡ spec.in_atom (shown tok.now) stack.old (atoms.step_atom (shown tok.now) atom)) }
{
    match step_atom(alloc, tok, atom)? {
        Next::More(atom) => Ok(Some(Mode::Atom(atom))),
        Next::Whole(form) => Ok(Some(Mode::Got(form))),
        Next::Held(form) => step_got(alloc, tok, form, stack),
        Next::No => Ok(None),
    }
}

fn step_in_head(
    alloc: Global,
    tok: &Placed,
    every: bool,
    head: HeadState,
) -> Result<Option<Mode>, Memory>
    ensures { IfOk result (λ it. it
        ≡ spec.in_head (shown tok.now) every (heads.step_head (shown tok.now) head)) }
{
    match step_head(alloc, tok, head)? {
        Next::More(head) => Ok(Some(Mode::Head(every, head))),
        Next::Held(head) => match &tok.tok {
            Tok::Colon => Ok(Some(Mode::Open(every, head))),
            _ => Ok(None),
        },
        Next::Whole(_) | Next::No => Ok(None),
    }
}

fn step_open(
    tok: &Placed,
    every: bool,
    head: Head,
    stack: &mut Stack,
) -> Result<Option<Mode>, Memory>
    ensures { IfOk result (λ it. option_map (λ mode. (mode, stack.new)) it
        ≡ spec.step_open (shown tok.now) every head stack.old) }
{
    match &tok.tok {
        Tok::Left => {
            stack.push(Frame::Quant(every, head))?;
            Ok(Some(Mode::Want))
        }
        _ => Ok(None),
    }
}

/// What a formula becomes with one more token; `None` where the token can't stand there.
pub fn step_form(
    alloc: Global,
    tok: &Placed,
    mode: Mode,
    stack: &mut Stack,
) -> Result<Option<Mode>, Memory>
    ensures { IfOk result (λ it. option_map (λ mode. (mode, stack.new)) it
        ≡ spec.step_form (shown tok.now) mode stack.old) }
{
    match mode {
        Mode::Want => step_want(alloc, tok, stack),
        Mode::Got(form) => step_got(alloc, tok, form, stack),
        Mode::Atom(atom) => step_in_atom(alloc, tok, atom, stack),
        Mode::Head(every, head) => step_in_head(alloc, tok, every, head),
        Mode::Open(every, head) => step_open(tok, every, head, stack),
        Mode::End(_) => Ok(None),
    }
}
