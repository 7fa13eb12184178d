//! The arguments of a query or a predicate, behind its `(`.
ghost use Rattle.std.specs.Prelude.{◌≡◌, ◌∷◌, [], ◌++◌, IfOk};
ghost use Rattle.rf_rparse.specs.Args as spec;
ghost use Rattle.rf_rparse.specs.Words.{shown};

use crate::next::Next;
use crate::words::name_in;
use rf_rlex::{Placed, Tok};
use rf_rtree::{Ask, Word};
use rf_text::{List, Memory};
use std::alloc::Global;

#[derive(Drop)]
pub enum Args {
    /// An argument is wanted.
    Want { name: Word, args: List<Word> },
    /// An argument has come.
    Have { name: Word, args: List<Word> },
}

fn want_arg(
    alloc: Global,
    tok: &Placed,
    name: Word,
    args: List<Word>,
) -> Result<Next<Args, Ask>, Memory>
    ensures { IfOk result (λ next. next ≡ spec.step_args (shown tok.now) (Args.Want name args)) }
{
    let mut args = args;
    let Some(arg) = name_in(alloc, tok)? else {
        return Ok(Next::No);
    };
    args.push(arg)?;
    Ok(Next::More(Args::Have { name, args }))
}

fn have_arg(tok: &Placed, name: Word, args: List<Word>) -> Next<Args, Ask>
    ensures { result ≡ spec.step_args (shown tok.now) (Args.Have name args) }
{
    match &tok.tok {
        Tok::Comma => Next::More(Args::Want { name, args }),
        Tok::Right => Next::Whole(Ask { name, args }),
        _ => Next::No,
    }
}

pub fn step_args(alloc: Global, tok: &Placed, args: Args) -> Result<Next<Args, Ask>, Memory>
    ensures { IfOk result (λ next. next ≡ spec.step_args (shown tok.now) args) }
{
    match args {
        Args::Want { name, args } => want_arg(alloc, tok, name, args),
        Args::Have { name, args } => Ok(have_arg(tok, name, args)),
    }
}
