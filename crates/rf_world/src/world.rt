ghost use Rattle.std.specs.Prelude.{◌≡◌, ℕ, Bool, Option, Some, None, IsTrue, IsErrOf, IfOk, OnOk, OnErr, IfSome, IsSome, option_map};
ghost use Rattle.rf_world.specs.Fault.{HasCause};
ghost use Rattle.rf_world.specs.World.{Files, AreDistinct, IsListing, MayHoldPrefix, with_file};

use rf_text::{Bytes, List, Memory};
use std::alloc::{AllocError, AllocFailed, Global};
use thiserror::Error;

/// Why a call of a world gave no answer.
#[derive(Clone, Copy, Debug, PartialEq, Eq, Error)]
pub enum WorldErr {
    /// The world could not do it, and the count for that kind of call has risen.
    #[error("reading or writing failed")]
    Failed,
    /// Want of memory, which any call may answer.
    #[error("out of memory")]
    Memory,
}

impl From<Memory> for WorldErr {
    ghost use Rattle.rf_world.specs.declared.world.WorldErr.TheVariants.{Memory as WantOfMemory};

    ghost from_gives = { λ _ error. error ≡ WantOfMemory };

    fn from(_want: Memory) -> WorldErr {
        WorldErr::Memory
    }
}

impl From<AllocError> for WorldErr {
    ghost use Rattle.rf_world.specs.declared.world.WorldErr.TheVariants.{Memory as WantOfMemory};

    ghost from_gives = { λ _ error. error ≡ WantOfMemory };

    fn from(_refused: AllocError) -> WorldErr {
        WorldErr::Memory
    }
}

impl<T: Drop> From<AllocFailed<T>> for WorldErr {
    ghost use Rattle.rf_world.specs.declared.world.WorldErr.TheVariants.{Memory as WantOfMemory};

    ghost from_gives = { λ _ error. error ≡ WantOfMemory };

    fn from(_refused: AllocFailed<T>) -> WorldErr {
        WorldErr::Memory
    }
}

/// Files by root and path: the root is where a tree of files stands, and the path goes down from
/// it, with `/`.
///
/// A world may tell its files, as a map, and then the clauses say what each call gives and does.
/// It counts the reads and the writes that failed, up to 2^64 - 1.
pub trait World {
    /// The files, where the world tells them.
    ghost told: { Self → Option Files };

    /// The calls of `list` and `read` that failed.
    ghost read_faults: { Self → ℕ };

    /// The calls of `write` that failed.
    ghost write_faults: { Self → ℕ };

    /// Whether only a read of a file that is not there fails.
    ghost honest: { Self → Bool };

    /// The paths of the files under `root`, each once, in any order.
    fn list(&mut self, alloc: Global, root: &[u8]) -> Result<List<Bytes>, WorldErr>
        ensures ok { IfOk result (λ paths.
            IfSome (told self.old) (λ files. IsListing root.now files paths)) }
        ensures once { IfOk result AreDistinct }
        ensures cause { HasCause WorldErr.Failed WorldErr.Memory
            (read_faults self.old) (read_faults self.new) result }
        ensures never { IsTrue (honest self.old) → IsErrOf result WorldErr.Failed → ⊥ }

        ensures same_files { told self.new ≡ told self.old }
        ensures same_write_faults { write_faults self.new ≡ write_faults self.old }
        ensures same_honest { honest self.new ≡ honest self.old };

    /// The bytes of one file. A file that is not there is `Failed`.
    fn read(&mut self, alloc: Global, root: &[u8], path: &[u8]) -> Result<Bytes, WorldErr>
        ensures ok { IfOk result (λ bytes.
            IfSome (told self.old) (λ files. files root.now path.now ≡ Some bytes)) }
        ensures cause { HasCause WorldErr.Failed WorldErr.Memory
            (read_faults self.old) (read_faults self.new) result }
        ensures absent { IsTrue (honest self.old) → IsErrOf result WorldErr.Failed
            → IfSome (told self.old) (λ files. files root.now path.now ≡ None) }

        ensures same_files { told self.new ≡ told self.old }
        ensures same_write_faults { write_faults self.new ≡ write_faults self.old }
        ensures same_honest { honest self.new ≡ honest self.old };

    /// Adds one file or replaces its bytes.
    /// After an `Err` that file is as before or holds a prefix of `bytes`, and all others stand.
    fn write(
        &mut self,
        alloc: Global,
        root: &[u8],
        path: &[u8],
        bytes: &[u8],
    ) -> Result<(), WorldErr>
        ensures ok { OnOk result
            (told self.new ≡ option_map (with_file root.now path.now bytes.now) (told self.old)) }
        ensures err { OnErr result
            (MayHoldPrefix root.now path.now bytes.now (told self.old) (told self.new)) }
        ensures cause { HasCause WorldErr.Failed WorldErr.Memory
            (write_faults self.old) (write_faults self.new) result }

        ensures same_read_faults { read_faults self.new ≡ read_faults self.old }
        ensures same_honest { honest self.new ≡ honest self.old };

    /// An honest world tells its files.
    ghost tells: { (world : Self) → IsTrue (honest world) → IsSome (told world) };
}
