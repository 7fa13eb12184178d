#![tactic(auto, using(crate::proofs::Walks::walks, std::proofs::lemmas::Grind::common_steps))]

ghost use Rattle.std.specs.Prelude.{◌≡◌, ◌+◌, OnOk, IfOk};
ghost use Rattle.rf_jtree.specs.NameShown.{name_shown, base_shown, type_shown};
ghost use Rattle.rf_jtree.specs.NameTrees.{name_yield};
ghost use Rattle.rf_jview.specs.Accounts.{noted};
ghost use Rattle.rf_jview.specs.MarkWords.{plains};
ghost use Rattle.rf_jview.specs.NameMarks.{type_name_marks, name_marks, base_marks, dims_marks, type_marks};

use crate::accounts::{front, note, plain};
use crate::{Account, Mark};
use rf_jtree::{Dims, Name, TypeBase, TypeUse};
use rf_text::Memory;

/// The name of a type.
pub fn type_name(name: &Name, account: &mut Account) -> Result<(), Memory>
    ensures { OnOk result
        (account.new ≡ noted account.old (type_name_marks (name_shown name.now))) }
{
    for _item in name.ids.rest.as_slice() {
        front(account)?;
        front(account)?;
    }
    note(account, Mark::TypeName)
}

fn two_more(back: u32) -> Result<u32, Memory>
    ensures { IfOk result (λ more. more ≡ back + 2) }
{
    back.checked_add(2).ok_or(Memory)
}

/// An expression name.
pub fn name(name: &Name, account: &mut Account) -> Result<(), Memory>
    ensures { OnOk result (account.new ≡ noted account.old (name_marks (name_shown name.now))) }
{
    let mut back = 0;
    for _item in name.ids.rest.as_slice() {
        note(account, Mark::Part(back))?;
        plain(account)?;
        back = two_more(back)?;
    }
    note(account, Mark::Name(back))
}

/// A name at which nothing stands: of a package, or of an import on demand.
pub fn plain_name(name: &Name, account: &mut Account) -> Result<(), Memory>
    ensures { OnOk result
        (account.new ≡ noted account.old (plains (name_yield (name_shown name.now)))) }
{
    plain(account)?;
    for _item in name.ids.rest.as_slice() {
        plain(account)?;
        plain(account)?;
    }
    Ok(())
}

/// A type without its brackets.
pub fn base(base: &TypeBase, account: &mut Account) -> Result<(), Memory>
    ensures { OnOk result (account.new ≡ noted account.old (base_marks (base_shown base.now))) }
{
    match base {
        TypeBase::Prim(_tok) => plain(account),
        TypeBase::Named(named) => type_name(named, account),
    }
}

/// Pairs of brackets.
pub fn dims(dims: &Dims, account: &mut Account) -> Result<(), Memory>
    ensures { OnOk result (account.new ≡ noted account.old (dims_marks dims.now)) }
{
    for _pair in dims.list.as_slice() {
        plain(account)?;
        plain(account)?;
    }
    Ok(())
}

/// The use of a type.
pub fn type_use(used_type: &TypeUse, account: &mut Account) -> Result<(), Memory>
    ensures { OnOk result
        (account.new ≡ noted account.old (type_marks (type_shown used_type.now))) }
{
    base(&used_type.base, account)?;
    dims(&used_type.dims, account)
}
