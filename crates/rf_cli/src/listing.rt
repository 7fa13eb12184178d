ghost use Rattle.std.specs.Prelude.{◌≡◌, IfOk, IfSome, IsErrOf, IsPermutation, IsTrue};
ghost use Rattle.rf_world.specs.Fault.{HasCause};
ghost use Rattle.rf_world.specs.World.{AreDistinct};
ghost use Rattle.rf_cli.specs.Listing.{AreInOrder, IsOrdered};

use rf_text::{Bytes, List};
use rf_world::{World, WorldErr};
use std::alloc::Global;

/// The paths of the files under `root`, in byte order, whatever the order in which the world lists them.
pub(crate) fn in_order<W: World>(
    alloc: Global,
    root: &[u8],
    world: &mut W,
) -> Result<List<Bytes>, WorldErr>
    ensures ok { IfOk result (λ paths.
        IfSome (W.told world.old) (λ files. IsOrdered root.now files paths)) }
    ensures once { IfOk result AreDistinct }
    ensures order { IfOk result AreInOrder }
    ensures cause { HasCause WorldErr.Failed WorldErr.Memory
        (W.read_faults world.old) (W.read_faults world.new) result }
    ensures never { IsTrue (W.honest world.old) → IsErrOf result WorldErr.Failed → ⊥ }

    ensures same_files { W.told world.new ≡ W.told world.old }
    ensures same_write_faults { W.write_faults world.new ≡ W.write_faults world.old }
    ensures same_honest { W.honest world.new ≡ W.honest world.old }
{
    let paths = world.list(alloc, root)?;
    Ok(sorted(paths))
}

/// The same paths in byte order.
fn sorted(mut paths: List<Bytes>) -> List<Bytes>
    ensures permutation { IsPermutation paths result }
    ensures order { AreInOrder result }
{
    paths.sort_unstable();
    paths
}
