ghost use Rattle.std.specs.Prelude.{◌≤◌, drop, length, IfOk};
ghost use Rattle.rf_jtree.specs.NameShown.{mods_shown};
ghost use Rattle.rf_jexpr.specs.Gives.{Gives, IsTaken};
ghost use Rattle.rf_jmods.specs.ModReads.{mods};
ghost use Rattle.rf_jmods.specs.ModReads.{variable_mods};

use crate::annotations::modifier;
use crate::mod_tests::variable_mods_fit;
use rf_jexpr::{ParseErr, Taken, attempt};
use rf_jtree::{Mod, Tok};
use rf_text::{List, Memory};
use std::alloc::Global;

/// Modifiers, as many as stand there (JLS 8.1.1, 8.3.1, 8.4.3, 9.7).
pub fn mods(alloc: Global, t: &[Tok], at: usize) -> Result<Taken<List<Mod>>, Memory>
    requires { at ≤ length t.now }
    ensures { IfOk result (IsTaken mods_shown t.now at (mods (drop at t.now))) }
{
    let mut list = List::new(alloc);
    let mut end = at;
    while let Some(next) = attempt(modifier(alloc, t, end))? {
        list.push(next.item)?;
        end = next.end;
    }
    Ok(Taken { item: list, end })
}

/// The modifiers of a local variable or a parameter (JLS 8.4.1, 14.4).
#[tactic(auto, unfolding(crate::specs::ModReads::variable_mods, rf_jexpr::specs::Reads::and_then, rf_jexpr::specs::Reads::when))]
pub fn variable_mods(alloc: Global, t: &[Tok], at: usize) -> Result<Taken<List<Mod>>, ParseErr>
    requires { at ≤ length t.now }
    ensures { Gives mods_shown t.now at result (variable_mods (drop at t.now)) }
{
    let found = mods(alloc, t, at)?;
    if !variable_mods_fit(found.item.as_slice()) {
        return Err(ParseErr::NoTree);
    }
    Ok(found)
}
