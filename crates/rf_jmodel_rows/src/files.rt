//! Projects of four small files.
ghost use Rattle.std.specs.Prelude.{◌<◌, ◌^◌, IfOk, length};
ghost use Rattle.rf_jmodel.specs.Whole.{IsParsed};

use rf_jdecl::unit;
use rf_jlex::{bytes_come_back, lex};
use rf_jmodel::{PlacedUnit, Project, number};
use rf_text::{Bytes, List, Memory};
use std::alloc::Global;

/// The file that is this text, with no path, or an `Err` where it has no tree, or very many tokens.
fn placed(alloc: Global, text: &[u8]) -> Result<PlacedUnit, Memory>
    ensures parsed { IfOk result (λ unit. IsParsed unit) }
    ensures few { IfOk result (λ unit. length unit.toks.list < 2 ^ 20) }
{
    bytes_come_back(text);
    let Ok(toks) = lex(alloc, text) else {
        return Err(Memory);
    };
    if toks.list.len() >= 0x10_0000 {
        return Err(Memory);
    }
    let Ok(tree) = unit(alloc, &toks) else {
        return Err(Memory);
    };
    Ok(PlacedUnit {
        path: Bytes::new(alloc),
        toks,
        from: List::new(alloc),
        tree,
    })
}

/// The project of these files: its own two, and the two of the library.
pub(crate) fn project_of(
    alloc: Global,
    own: [&[u8]; 2],
    lib: [&[u8]; 2],
) -> Result<Project, Memory> {
    let mut units = List::new(alloc);
    units.push(placed(alloc, own[0])?)?;
    units.push(placed(alloc, own[1])?)?;
    units.push(placed(alloc, lib[0])?)?;
    units.push(placed(alloc, lib[1])?)?;
    number(alloc, units, 2, 2)
}
