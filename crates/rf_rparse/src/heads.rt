//! Variables and the queries on them.
ghost use Rattle.std.specs.Prelude.{◌≡◌, ◌∷◌, [], ◌++◌, IfOk};
ghost use Rattle.rf_rparse.specs.Heads as spec;
ghost use Rattle.rf_rparse.specs.Words.{shown};

use crate::args::{Args, step_args};
use crate::next::Next;
use crate::words::name_in;
use rf_rlex::{Placed, Tok};
use rf_rtree::{Ask, RVar, Word};
use rf_text::{List, Memory};
use std::alloc::Global;

/// Variables and the queries on them, as far as they have come.
#[derive(Drop)]
pub struct Head {
    pub vars: List<RVar>,
    pub asks: List<Ask>,
}

#[derive(Drop)]
pub enum HeadState {
    /// A variable is wanted: its name, its colon, its kind.
    Var(Head),
    Colon(Head, Word),
    Kind(Head, Word),
    /// A variable has come.
    Vars(Head),
    /// A query is wanted: its name, its parenthesis, its arguments.
    Ask(Head),
    Left(Head, Word),
    Args(Head, Args),
    /// A query has come.
    Asks(Head),
}

pub fn empty_head(alloc: Global) -> HeadState
    ensures { result ≡ spec.empty_head }
{
    HeadState::Var(Head {
        vars: List::new(alloc),
        asks: List::new(alloc),
    })
}

fn step_var(alloc: Global, tok: &Placed, head: Head) -> Result<Next<HeadState, Head>, Memory>
    ensures { IfOk result (λ next. next ≡ spec.step_head (shown tok.now) (HeadState.Var head)) }
{
    let Some(name) = name_in(alloc, tok)? else {
        return Ok(Next::No);
    };
    Ok(Next::More(HeadState::Colon(head, name)))
}

fn step_kind(
    alloc: Global,
    tok: &Placed,
    head: Head,
    name: Word,
) -> Result<Next<HeadState, Head>, Memory>
    ensures { IfOk result (λ next. next
        ≡ spec.step_head (shown tok.now) (HeadState.Kind head name)) }
{
    let Head { mut vars, asks } = head;
    let Some(kind) = name_in(alloc, tok)? else {
        return Ok(Next::No);
    };
    vars.push(RVar { name, kind })?;
    Ok(Next::More(HeadState::Vars(Head { vars, asks })))
}

/// At most four variables.
const MOST_VARS: usize = 4;

fn step_vars(tok: &Placed, head: Head) -> Next<HeadState, Head>
    ensures { result ≡ spec.step_head (shown tok.now) (HeadState.Vars head) }
{
    match &tok.tok {
        Tok::Comma if head.vars.len() < MOST_VARS => Next::More(HeadState::Var(head)),
        Tok::If => Next::More(HeadState::Ask(head)),
        _ => Next::Held(head),
    }
}

fn step_ask(alloc: Global, tok: &Placed, head: Head) -> Result<Next<HeadState, Head>, Memory>
    ensures { IfOk result (λ next. next ≡ spec.step_head (shown tok.now) (HeadState.Ask head)) }
{
    let Some(name) = name_in(alloc, tok)? else {
        return Ok(Next::No);
    };
    Ok(Next::More(HeadState::Left(head, name)))
}

fn with_ask(head: Head, ask: Ask) -> Result<Head, Memory>
    ensures { IfOk result (λ more. more ≡ spec.with_ask head ask) }
{
    let Head { vars, mut asks } = head;
    asks.push(ask)?;
    Ok(Head { vars, asks })
}

fn step_in_args(
    alloc: Global,
    tok: &Placed,
    head: Head,
    args: Args,
) -> Result<Next<HeadState, Head>, Memory>
    ensures { IfOk result (λ next. next
        ≡ spec.step_head (shown tok.now) (HeadState.Args head args)) }
{
    match step_args(alloc, tok, args)? {
        Next::More(args) => Ok(Next::More(HeadState::Args(head, args))),
        Next::Whole(ask) => {
            let head = with_ask(head, ask)?;
            Ok(Next::More(HeadState::Asks(head)))
        }
        Next::Held(_) | Next::No => Ok(Next::No),
    }
}

fn step_asks(tok: &Placed, head: Head) -> Next<HeadState, Head>
    ensures { result ≡ spec.step_head (shown tok.now) (HeadState.Asks head) }
{
    match &tok.tok {
        Tok::Comma => Next::More(HeadState::Ask(head)),
        _ => Next::Held(head),
    }
}

pub fn step_head(
    alloc: Global,
    tok: &Placed,
    state: HeadState,
) -> Result<Next<HeadState, Head>, Memory>
    ensures { IfOk result (λ next. next ≡ spec.step_head (shown tok.now) state) }
{
    match state {
        HeadState::Var(head) => step_var(alloc, tok, head),
        HeadState::Colon(head, name) => match &tok.tok {
            Tok::Colon => Ok(Next::More(HeadState::Kind(head, name))),
            _ => Ok(Next::No),
        },
        HeadState::Kind(head, name) => step_kind(alloc, tok, head, name),
        HeadState::Vars(head) => Ok(step_vars(tok, head)),
        HeadState::Ask(head) => step_ask(alloc, tok, head),
        HeadState::Left(head, name) => match &tok.tok {
            Tok::Left => {
                let args = List::new(alloc);
                Ok(Next::More(HeadState::Args(head, Args::Want { name, args })))
            }
            _ => Ok(Next::No),
        },
        HeadState::Args(head, args) => step_in_args(alloc, tok, head, args),
        HeadState::Asks(head) => Ok(step_asks(tok, head)),
    }
}
