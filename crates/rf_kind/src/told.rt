ghost use Rattle.std.specs.Prelude.{◌≡◌, Some, IfOk};
ghost use Rattle.rf_rtree.specs.Programs as spec;
ghost use Rattle.rf_kind.specs.Found.{said as spec_said, told_in};

use crate::faults::Said;
use crate::programs::{Blamed, first_blamed};
use rf_rtree::{KindFault, Lang, RuleProg};
use rf_text::{Bytes, Memory};
use std::alloc::Global;

fn text_of(alloc: Global, said: Said) -> Result<Bytes, Memory>
    ensures { IfOk result (λ text. text ≡ spec_said said.entry) }
{
    match said {
        Said::Text(text) => Bytes::from_slice(alloc, text),
        Said::Count(number) => {
            let text = format!(in alloc; "{number}")?;
            Bytes::from_slice(alloc, text.as_bytes())
        }
    }
}

fn told(alloc: Global, blamed: Blamed) -> Result<KindFault, Memory>
    ensures { IfOk result (λ fault. Some fault ≡ told_in (Some blamed.entry)) }
{
    let rule = blamed.item.name.text.copy(alloc)?;
    let found = text_of(alloc, blamed.fault.found)?;
    let wanted = text_of(alloc, blamed.fault.wanted)?;
    Ok(KindFault {
        rule,
        line: blamed.fault.line,
        found,
        wanted,
    })
}

/// The first kind fault of a program in a language, or `None` exactly where it has none.
pub fn first_fault(alloc: Global, prog: &RuleProg, lang: &Lang) -> Result<Option<KindFault>, Memory>
    ensures { IfOk result (λ fault. fault ≡ spec.first_fault prog.now lang.now) }
{
    match first_blamed(prog, lang) {
        None => Ok(None),
        Some(blamed) => {
            let fault = told(alloc, blamed)?;
            Ok(Some(fault))
        }
    }
}
