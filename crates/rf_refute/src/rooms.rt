ghost use Rattle.std.specs.Prelude.{◌≡◌, IfOk, length};
ghost use Rattle.rf_form.specs.Alive.{IsFit, Counts};
ghost use Rattle.rf_cons.specs.Systems.{System};
ghost use Rattle.rf_refute.specs.Stacks.{HasRoom};

use rf_cons::Constraints;
use rf_form::Alive;
use rf_text::Memory;

/// How many places of the variable are alive.
fn size_of<D: Alive>(doms: &D, x: usize) -> Result<usize, Memory>
    ensures { IfOk result (Counts (D.family doms.now) x) }
{
    match u32::try_from(x) {
        Ok(x) => Ok(doms.size(x) as usize),
        Err(_) => Err(Memory),
    }
}

/// How many places are alive.
pub fn room_of<C: Constraints, D: Alive>(all: &C, doms: &D) -> Result<usize, Memory>
    requires { IsFit (C.system all.now).vals (D.family doms.now) }
    ensures { IfOk result (HasRoom (D.family doms.now)) }
{
    let mut room: usize = 0;
    for x in 0..all.vals().len() {
        match room.checked_add(size_of(doms, x)?) {
            Some(more) => room = more,
            None => return Err(Memory),
        }
    }
    Ok(room)
}
