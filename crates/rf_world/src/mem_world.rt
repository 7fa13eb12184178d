ghost use Rattle.std.specs.Prelude.{◌≡◌, ◌/◌, ◌≤◌, ◌↔◌, ◌⊎◌, [], Some, None, false, refl, IsErr, IsErrOf, IfOk, OnOk, OnErr, length, take};
ghost use Rattle.rf_world.specs.Fault.{CountsFaults, next_count};
ghost use Rattle.rf_world.specs.MemFiles.{AreApart, IsWritten, content, map_of, paths_under, put_file};
ghost use Rattle.rf_world.specs.World.{AreDistinct, IsListing, MayHoldPrefix, with_file};

use crate::calls::Calls;
use crate::{World, WorldErr, mem_files};
use rf_text::{Bytes, List, Memory};
use std::alloc::Global;

/// A world in memory, which tells its files, and of which chosen calls fail.
/// The calls of `list`, `read` and `write` are numbered from 0 in their order, failed ones too.
#[derive(Drop)]
pub struct MemWorld {
    files: List<(Bytes, Bytes, Bytes)>,
    calls: Calls,
    read_faults: u64,
    write_faults: u64,
    ghost apart: { AreApart files },
}

impl MemWorld {
    ghost use Rattle.rf_world.specs.Calls.{calls_made, failing_calls};
    ghost use Rattle.rf_world.specs.Memory.{KeepsCounts, failed_reads, failed_writes, world_calls, world_files};

    /// A world with no files, whose calls with a number in `failing` fail.
    pub fn new(alloc: Global, failing: List<u64>) -> MemWorld
        ensures files { world_files result ≡ [] }
        ensures failing { failing_calls (world_calls result) ≡ failing }
        ensures calls { calls_made (world_calls result) ≡ 0 }
        ensures reads { failed_reads result ≡ 0 }
        ensures writes { failed_writes result ≡ 0 }
    {
        MemWorld {
            files: List::new(alloc),
            calls: Calls::new(failing),
            read_faults: 0,
            write_faults: 0,
        }
    }

    /// The files, each with its root, its path and its bytes.
    pub fn files(&self) -> &List<(Bytes, Bytes, Bytes)>
        ensures { result.now ≡ world_files self.now }
    {
        &self.files
    }

    /// Adds one file or replaces its bytes. This is no call of the world.
    #[tactic(auto, using(crate::proofs::Apart::put_file_apart, crate::proofs::Written::put_file_written))]
    pub fn put_file(
        &mut self,
        alloc: Global,
        root: &[u8],
        path: &[u8],
        bytes: &[u8],
    ) -> Result<(), Memory>
        ensures ok { OnOk result
            (world_files self.new ≡ put_file root.now path.now bytes.now (world_files self.old)) }
        ensures written { OnOk result
            (IsWritten root.now path.now bytes.now (world_files self.old) (world_files self.new)) }
        ensures err { OnErr result (world_files self.new ≡ world_files self.old) }
        ensures same { KeepsCounts self.old self.new }
    {
        mem_files::put(alloc, &mut self.files, root, path, bytes)
    }

    /// Counts a failed `list` or `read`.
    fn fail_read(&mut self) -> WorldErr
        ensures failed { result ≡ WorldErr.Failed }
        ensures later { self.old.read_faults ≤ self.new.read_faults }
        ensures rest { self.new
            ≡ record self.old { read_faults = next_count self.old.read_faults } }
    {
        self.read_faults = self.read_faults.saturating_add(1);
        WorldErr::Failed
    }
}

impl World for MemWorld {
    ghost use Rattle.rf_world.specs.Calls.{CountsOneCall, FailsNext};
    ghost use Rattle.rf_world.specs.Memory.{LooksOnly, failed_reads, failed_writes, world_calls, world_files};

    ghost told = { λ world. Some (map_of world.files) };

    ghost read_faults = { λ world. world.read_faults };

    ghost write_faults = { λ world. world.write_faults };

    ghost honest = { λ _. false };

    /// It fails exactly where it is a failing call.
    #[tactic(auto, using(crate::proofs::Apart::paths_are_distinct))]
    fn list(&mut self, alloc: Global, root: &[u8]) -> Result<List<Bytes>, WorldErr>
        ensures ok { IfOk result (λ paths. paths ≡ paths_under root.now (world_files self.old)) }
        ensures listing { IfOk result
            (λ paths. IsListing root.now (map_of (world_files self.old)) paths) }
        ensures once { IfOk result AreDistinct }
        ensures failed { IsErrOf result WorldErr.Failed ↔ FailsNext (world_calls self.old) }
        ensures counts { CountsFaults WorldErr.Failed WorldErr.Memory
            (failed_reads self.old) (failed_reads self.new) result }
        ensures looks { LooksOnly self.old self.new }
    {
        if self.calls.begin() {
            return Err(self.fail_read());
        }
        Ok(mem_files::paths(alloc, &self.files, root)?)
    }

    /// It fails exactly where it is a failing call or the file is not there.
    fn read(&mut self, alloc: Global, root: &[u8], path: &[u8]) -> Result<Bytes, WorldErr>
        ensures ok { IfOk result
            (λ bytes. content root.now path.now (world_files self.old) ≡ Some bytes) }
        ensures failed { IsErrOf result WorldErr.Failed
            ↔ (FailsNext (world_calls self.old)
            ⊎ (content root.now path.now (world_files self.old) ≡ None)) }
        ensures counts { CountsFaults WorldErr.Failed WorldErr.Memory
            (failed_reads self.old) (failed_reads self.new) result }
        ensures looks { LooksOnly self.old self.new }
    {
        if self.calls.begin() {
            return Err(self.fail_read());
        }
        match mem_files::find(&self.files, root, path) {
            Some(bytes) => Ok(Bytes::from_slice(alloc, bytes.as_slice())?),
            None => Err(self.fail_read()),
        }
    }

    /// A failing call puts the first half of the bytes, rounded down, into the file.
    #[tactic(auto, using(crate::proofs::Apart::put_file_apart))]
    fn write(
        &mut self,
        alloc: Global,
        root: &[u8],
        path: &[u8],
        bytes: &[u8],
    ) -> Result<(), WorldErr>
        ensures written { OnOk result (map_of (world_files self.new)
            ≡ with_file root.now path.now bytes.now (map_of (world_files self.old))) }
        ensures prefix { OnErr result (MayHoldPrefix root.now path.now bytes.now
            (Some (map_of (world_files self.old))) (Some (map_of (world_files self.new)))) }
        ensures ok { OnOk result
            (world_files self.new ≡ put_file root.now path.now bytes.now (world_files self.old)) }
        ensures half { IsErrOf result WorldErr.Failed
            → world_files self.new ≡ put_file root.now path.now
            (take (length bytes.now / 2) bytes.now) (world_files self.old) }
        ensures unchanged { IsErrOf result WorldErr.Memory
            → world_files self.new ≡ world_files self.old }
        ensures fails { FailsNext (world_calls self.old) → IsErr result }
        ensures failed { IsErrOf result WorldErr.Failed → FailsNext (world_calls self.old) }
        ensures counts { CountsFaults WorldErr.Failed WorldErr.Memory
            (failed_writes self.old) (failed_writes self.new) result }
        ensures call { CountsOneCall (world_calls self.old) (world_calls self.new) }
        ensures same_reads { failed_reads self.new ≡ failed_reads self.old }
    {
        let fails = self.calls.begin();
        let stored = if fails {
            &bytes[..bytes.len() / 2]
        } else {
            bytes
        };
        mem_files::put(alloc, &mut self.files, root, path, stored)?;
        if fails {
            self.write_faults = self.write_faults.saturating_add(1);
            return Err(WorldErr::Failed);
        }
        Ok(())
    }

    ghost tells = { λ _ _. refl };
}
