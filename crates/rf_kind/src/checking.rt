ghost use Rattle.std.specs.Prelude.{IsTrue};
ghost use Rattle.rf_rtree.specs.Accesses.{has_access_words};
ghost use Rattle.rf_kind.specs.Checks.{Checks};

use crate::told::first_fault;
use rf_rtree::{Checked, Copied, KindFault, Lang, RuleProg};
use std::alloc::Global;

/// Why a program isn't checked.
#[derive(Drop)]
pub enum KindErr {
    Fault(KindFault),
    Memory,
}

/// The program and its language once more, where it has no kind fault; else the first fault.
pub fn check(alloc: Global, prog: &RuleProg, lang: &Lang) -> Result<Checked, KindErr>
    requires { IsTrue (has_access_words prog.now) }
    ensures { Checks prog.now lang.now result }
{
    match first_fault(alloc, prog, lang) {
        Err(_) => return Err(KindErr::Memory),
        Ok(Some(fault)) => return Err(KindErr::Fault(fault)),
        Ok(None) => {}
    }
    let Ok(prog) = prog.copy(alloc) else {
        return Err(KindErr::Memory);
    };
    let Ok(lang) = lang.copy(alloc) else {
        return Err(KindErr::Memory);
    };
    Ok(Checked { prog, lang })
}
