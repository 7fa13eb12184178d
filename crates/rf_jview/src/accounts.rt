#![tactic(auto, unfolding(crate::specs::Accounts::back_of, crate::specs::Accounts::invoke_mark, crate::specs::Accounts::noted, crate::specs::Accounts::entered, crate::specs::Accounts::start_of, crate::specs::Accounts::opened, crate::specs::Accounts::pointed))]

ghost use Rattle.std.specs.Prelude.{◌≡◌, ◌+◌, ◌<◌, ◌∷◌, [], ◌-◌, length, IfOk, OnOk};
ghost use Rattle.rf_jview.specs.declared.marks.Mark.TheVariants as m;
ghost use Rattle.rf_jview.specs.MarkWords.{counted};
ghost use Rattle.rf_jview.specs.Accounts.{back_of, invoke_mark, noted, entered, start_of, opened, pointed};

use crate::{Invocation, Mark, Opening};
use rf_text::{List, Memory};
use std::alloc::Global;

/// The account of a file while it is written.
#[derive(Drop)]
pub struct Account {
    pub list: List<Mark>,
    /// How far behind the beginning of its block the next token stands.
    pub back: u32,
}

/// A token whose mark is put in later: its number, and how far behind the beginning of its block it stands.
#[derive(Clone, Copy)]
pub struct Start {
    pub at: usize,
    pub back: u32,
}

fn added(one: u32, other: u32) -> Result<u32, Memory>
    ensures { IfOk result (λ sum. sum ≡ one + other) }
{
    one.checked_add(other).ok_or(Memory)
}

/// Notes a mark that distances count.
pub fn note(account: &mut Account, mark: Mark) -> Result<(), Memory>
    requires { counted (mark ∷ []) ≡ 1 }
    ensures { OnOk result (account.new ≡ noted account.old (mark ∷ [])) }
{
    account.list.push(mark)?;
    account.back = added(account.back, 1)?;
    Ok(())
}

/// Notes a token of a type's name before its last identifier.
pub fn front(account: &mut Account) -> Result<(), Memory>
    ensures { OnOk result (account.new ≡ noted account.old (m.Front ∷ [])) }
{
    account.list.push(Mark::Front)
}

/// Notes a token at which nothing stands.
pub fn plain(account: &mut Account) -> Result<(), Memory>
    ensures { OnOk result (account.new ≡ noted account.old (m.Plain ∷ [])) }
{
    note(account, Mark::Plain)
}

/// Notes a variable of the block that is open.
pub fn local(account: &mut Account) -> Result<(), Memory>
    ensures { OnOk result
        (account.new ≡ noted account.old (m.Local (back_of account.old) ∷ [])) }
{
    let back = account.back;
    note(account, Mark::Local(back))
}

/// How far behind the beginning of its block the next token stands.
pub fn here(account: &Account) -> u32
    ensures { result ≡ back_of account.now }
{
    account.back
}

/// Notes the `)` of an invocation, with `(` so far behind its identifier, and `from` where that `(` stands.
pub fn invoke(
    account: &mut Account,
    invocation: Invocation,
    back: u32,
    from: u32,
) -> Result<(), Memory>
    ensures { OnOk result
        (account.new ≡ noted account.old (invoke_mark invocation back from account.old ∷ [])) }
{
    let width = added(back, account.back.saturating_sub(from))?;
    note(account, Mark::Invokes(invocation, width))
}

/// Notes a token that begins a block, whose mark is to come.
pub fn enter(account: &mut Account) -> Result<Start, Memory>
    ensures start { IfOk result (λ start. start ≡ start_of account.old) }
    ensures account { OnOk result (account.new ≡ entered account.old) }
{
    let start = Start {
        at: account.list.len(),
        back: account.back,
    };
    account.list.push(Mark::Plain)?;
    account.back = 1;
    Ok(start)
}

/// Ends a block: puts in the mark of the token that begins it.
pub fn open(account: &mut Account, start: Start, opening: Opening) -> Result<(), Memory>
    requires { start.at < length account.old.list }
    ensures { OnOk result (account.new ≡ opened opening start account.old) }
{
    let back = added(start.back, account.back)?;
    account.list.set(
        start.at,
        Mark::Opens(opening, account.back.saturating_sub(1)),
    );
    account.back = back;
    Ok(())
}

/// Notes a variable whose block begins further on, which is said later.
pub fn await_block(account: &mut Account) -> Result<Start, Memory>
    ensures start { IfOk result (λ start. start ≡ start_of account.old) }
    ensures account { OnOk result (account.new ≡ noted account.old (m.Ahead 0 ∷ [])) }
{
    let start = Start {
        at: account.list.len(),
        back: account.back,
    };
    note(account, Mark::Ahead(0))?;
    Ok(start)
}

/// Says that the block of a variable begins at the next token.
pub fn point(account: &mut Account, start: Start)
    requires { start.at < length account.old.list }
    ensures { account.new ≡ pointed start account.old }
{
    let ahead = account.back.saturating_sub(start.back);
    account.list.set(start.at, Mark::Ahead(ahead));
}
