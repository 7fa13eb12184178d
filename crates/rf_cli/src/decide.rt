ghost use Rattle.std.specs.Prelude.{◌≡◌, IfOk, IfSome, IsErrOf, IsSome, IsTrue, []};
ghost use Rattle.rf_world.specs.Fault.{HasCause};
ghost use Rattle.rf_cli.specs.Command.{command_seen};
ghost use Rattle.rf_cli.specs.Inputs.{IsRight};

use crate::command::ApplyWords;
use crate::java_files::only_java;
use crate::listing::in_order;
use rf_engine::{FirstPath, first_path};
use rf_text::Bytes;
use rf_world::{World, WorldErr};
use std::alloc::Global;

/// The path of the Java file, and what is to be done with it.
#[derive(Drop)]
pub(crate) struct Decision {
    pub path: Bytes,
    pub answer: FirstPath,
}

/// Reads what the command names and decides what is to be done. No file is written.
///
/// The request is read first, then SRC is listed in byte order, then its one Java file is read.
pub(crate) fn decide<W: World>(
    alloc: Global,
    command: &ApplyWords<'_>,
    world: &mut W,
) -> Result<Decision, WorldErr>
    ensures right { IfOk result (λ decision. IfSome (W.told world.old)
        (λ files. IsRight (command_seen command.now) files decision.path decision.answer)) }
    ensures cause { HasCause WorldErr.Failed WorldErr.Memory
        (W.read_faults world.old) (W.read_faults world.new) result }
    ensures never { IsTrue (W.honest world.old)
        → IfSome (W.told world.old) (λ files. IsSome (files [] command.now.request.now))
        → IsErrOf result WorldErr.Failed → ⊥ }

    ensures same_files { W.told world.new ≡ W.told world.old }
    ensures same_write_faults { W.write_faults world.new ≡ W.write_faults world.old }
    ensures same_honest { W.honest world.new ≡ W.honest world.old }
{
    if command.lib != b"-".as_slice() {
        return Ok(not_yet(alloc));
    }
    let request = world.read(alloc, b"", command.request)?;
    let paths = in_order(alloc, command.src, world)?;
    let Some(path) = only_java(paths.as_slice()) else {
        return Ok(not_yet(alloc));
    };
    let path = Bytes::from_slice(alloc, path.as_slice())?;
    let at = path.as_slice();
    let file = world.read(alloc, command.src, at)?;
    let answer = first_path(alloc, at, file.as_slice(), request.as_slice())?;
    Ok(Decision { path, answer })
}

/// There is nothing of the first form.
fn not_yet(alloc: Global) -> Decision
    ensures { result.answer ≡ FirstPath.NotYet }
{
    Decision {
        path: Bytes::new(alloc),
        answer: FirstPath::NotYet,
    }
}
