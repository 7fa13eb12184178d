//! Items and programs.
ghost use Rattle.std.specs.Prelude.{◌≡◌, ◌∷◌, [], ◌++◌, IfOk, OnOk};
ghost use Rattle.std.specs.Option.{option_map};
ghost use Rattle.rf_rparse.specs.Forms as forms;
ghost use Rattle.rf_rparse.specs.Heads as heads;
ghost use Rattle.rf_rparse.specs.Programs as spec;
ghost use Rattle.rf_rparse.specs.Words.{shown};

use crate::forms::{Mode, step_form};
use crate::frames::Stack;
use crate::heads::{Head, HeadState, empty_head, step_head};
use crate::next::Next;
use crate::words::name_in;
use rf_rlex::{Placed, Tok};
use rf_rtree::{Item, RForm, Word};
use rf_text::{Boxed, List, Memory};
use std::alloc::Global;

/// What stands before `for`.
#[derive(Drop)]
pub struct Title {
    pub derive: bool,
    pub name: Word,
}

/// How far an item has come.
pub enum Stage {
    /// Between items.
    Top,
    /// Behind `rule`, or `derive` where the flag is set.
    Name(bool),
    For(Title),
    Head(Title, HeadState),
    Body(Title, Head, Mode, Stack),
}

// Written out, so that a caller's proof sees one call.
impl Drop for Stage {
    fn drop(self) {
        match self {
            Stage::Top | Stage::Name(_) => {}
            Stage::For(_title) => {}
            Stage::Head(_title, _head) => {}
            Stage::Body(_title, _head, _mode, _stack) => {}
        }
    }
}

fn step_top(tok: &Placed) -> Option<Stage>
    ensures { result ≡ spec.step_top (shown tok.now) }
{
    match &tok.tok {
        Tok::Rule => Some(Stage::Name(false)),
        Tok::Derive => Some(Stage::Name(true)),
        _ => None,
    }
}

fn step_name(alloc: Global, tok: &Placed, derive: bool) -> Result<Option<Stage>, Memory>
    ensures { IfOk result (λ it. it ≡ spec.step_name (shown tok.now) derive) }
{
    match name_in(alloc, tok)? {
        Some(name) => Ok(Some(Stage::For(Title { derive, name }))),
        None => Ok(None),
    }
}

fn step_for(alloc: Global, tok: &Placed, title: Title) -> Option<Stage>
    ensures { result ≡ spec.step_for (shown tok.now) title }
{
    match &tok.tok {
        Tok::For => Some(Stage::Head(title, empty_head(alloc))),
        _ => None,
    }
}

/// Whether this is the word before the body.
fn is_body_word(tok: &Placed, derive: bool) -> bool
    ensures { result ≡ spec.is_body_word (shown tok.now) derive }
{
    match &tok.tok {
        Tok::Means => derive,
        Tok::Then => !derive,
        _ => false,
    }
}

fn step_in_head(
    alloc: Global,
    tok: &Placed,
    title: Title,
    head: HeadState,
) -> Result<Option<Stage>, Memory>
    ensures { IfOk result (λ it. it
        ≡ spec.in_head (shown tok.now) title (heads.step_head (shown tok.now) head)) }
{
    match step_head(alloc, tok, head)? {
        Next::More(head) => Ok(Some(Stage::Head(title, head))),
        Next::Held(head) => {
            if !is_body_word(tok, title.derive) {
                return Ok(None);
            }
            let stack = Stack::new(alloc);
            Ok(Some(Stage::Body(title, head, Mode::Want, stack)))
        }
        Next::Whole(_) | Next::No => Ok(None),
    }
}

fn item_of(title: Title, head: Head, body: Boxed<RForm>) -> Item
    ensures { result ≡ spec.item_of title head body }
{
    let Title { derive, name } = title;
    let Head { vars, asks } = head;
    let body = body.into_inner();
    Item {
        derive,
        name,
        vars,
        asks,
        body,
    }
}

fn step_body(
    alloc: Global,
    tok: &Placed,
    title: Title,
    head: Head,
    mode: Mode,
    stack: Stack,
    items: &mut List<Item>,
) -> Result<Option<Stage>, Memory>
    ensures { IfOk result (λ it. option_map (λ stage. (stage, items.new)) it
        ≡ spec.in_body title head items.old (forms.step_form (shown tok.now) mode stack)) }
{
    let mut stack = stack;
    match step_form(alloc, tok, mode, &mut stack)? {
        None => Ok(None),
        Some(Mode::End(body)) => {
            items.push(item_of(title, head, body))?;
            Ok(Some(Stage::Top))
        }
        Some(mode) => Ok(Some(Stage::Body(title, head, mode, stack))),
    }
}

impl Stage {
    /// What a program becomes with one more token; `None` where the token can't stand there.
    pub fn with(
        self,
        alloc: Global,
        tok: &Placed,
        items: &mut List<Item>,
    ) -> Result<Option<Stage>, Memory>
        ensures { IfOk result (λ it. option_map (λ stage. (stage, items.new)) it
            ≡ spec.step_program (shown tok.now) self items.old) }
    {
        match self {
            Stage::Top => Ok(step_top(tok)),
            Stage::Name(derive) => step_name(alloc, tok, derive),
            Stage::For(title) => Ok(step_for(alloc, tok, title)),
            Stage::Head(title, head) => step_in_head(alloc, tok, title, head),
            Stage::Body(title, head, mode, stack) => {
                step_body(alloc, tok, title, head, mode, stack, items)
            }
        }
    }
}
