ghost use Rattle.std.specs.Prelude.{◌≤◌, drop, length};
ghost use Rattle.rf_jstmt.specs.BlockAt.{IsLongestBlock};
ghost use Rattle.rf_jstmt.specs.StmtGives.{GivesBlock};
ghost use Rattle.rf_jstmt.specs.StmtReads.{whole_block};

use crate::blocks::block_alone;
use rf_jexpr::ParseErr;
use rf_jtree::{Stmt, Tok};
use std::alloc::Global;

/// A statement in braces no deeper than the room, and the number of the token behind it.
fn block_and_end(alloc: Global, t: &[Tok], at: usize, room: u32) -> Result<(Stmt, usize), ParseErr>
    ensures { GivesBlock t.now result (whole_block room (drop at t.now)) }
{
    if room == 0 {
        return Err(ParseErr::NoTree);
    }
    let found = block_alone(alloc, t, at, room - 1)?;
    Ok((Box::into_inner(found.tree), found.end))
}

/// The longest statement in braces, and the number of the token behind it (JLS 14.2). `NoTree` comes exactly where none
/// stands there that is no deeper than the room.
pub fn block(alloc: Global, t: &[Tok], at: usize, room: u32) -> Result<(Stmt, usize), ParseErr>
    requires { at ≤ length t.now }
    ensures { IsLongestBlock t.now at room result }
{
    block_and_end(alloc, t, at, room)
}
