ghost use Rattle.std.specs.Prelude.{◌≡◌, ◌↔◌, [], Some, None, true, refl, IsErrOf, IfOk, OnOk, OnErr, IsOkUnless};
ghost use Rattle.rf_world.specs.Fault.{CountsFaults};
ghost use Rattle.rf_world.specs.MemFiles.{AreApart, IsWritten, content, map_of, paths_under, put_file};
ghost use Rattle.rf_world.specs.World.{AreDistinct, IsListing, MayHoldPrefix, with_file};

use crate::{World, WorldErr, mem_files};
use rf_text::{Bytes, List, Memory};
use std::alloc::Global;

/// A world in memory, which tells its files.
/// Only a read of a file that is not there fails.
#[derive(Drop)]
pub struct HonestWorld {
    files: List<(Bytes, Bytes, Bytes)>,
    read_faults: u64,
    ghost apart: { AreApart files },
}

impl HonestWorld {
    ghost use Rattle.rf_world.specs.Memory.{absent_reads, honest_files};

    /// A world with no files.
    pub fn new(alloc: Global) -> HonestWorld
        ensures files { honest_files result ≡ [] }
        ensures reads { absent_reads result ≡ 0 }
    {
        HonestWorld {
            files: List::new(alloc),
            read_faults: 0,
        }
    }

    /// The files, each with its root, its path and its bytes.
    pub fn files(&self) -> &List<(Bytes, Bytes, Bytes)>
        ensures { result.now ≡ honest_files self.now }
    {
        &self.files
    }

    /// Adds one file or replaces its bytes.
    #[tactic(auto, using(crate::proofs::Apart::put_file_apart, crate::proofs::Written::put_file_written))]
    pub fn put_file(
        &mut self,
        alloc: Global,
        root: &[u8],
        path: &[u8],
        bytes: &[u8],
    ) -> Result<(), Memory>
        ensures ok { OnOk result
            (honest_files self.new
            ≡ put_file root.now path.now bytes.now (honest_files self.old)) }
        ensures written { OnOk result
            (IsWritten root.now path.now bytes.now (honest_files self.old)
            (honest_files self.new)) }
        ensures err { OnErr result (honest_files self.new ≡ honest_files self.old) }
        ensures same_reads { absent_reads self.new ≡ absent_reads self.old }
    {
        mem_files::put(alloc, &mut self.files, root, path, bytes)
    }
}

impl World for HonestWorld {
    ghost use Rattle.rf_world.specs.Memory.{absent_reads, honest_files};

    ghost told = { λ world. Some (map_of world.files) };

    ghost read_faults = { λ world. world.read_faults };

    ghost write_faults = { λ _. 0 };

    ghost honest = { λ _. true };

    /// It answers an `Err` only for want of memory.
    #[tactic(auto, using(crate::proofs::Listing::paths_are_listing, crate::proofs::Apart::paths_are_distinct))]
    fn list(&mut self, alloc: Global, root: &[u8]) -> Result<List<Bytes>, WorldErr>
        ensures ok { IfOk result (λ paths. paths ≡ paths_under root.now (honest_files self.old)) }
        ensures listing { IfOk result
            (λ paths. IsListing root.now (map_of (honest_files self.old)) paths) }
        ensures once { IfOk result AreDistinct }
        ensures memory { IsOkUnless result WorldErr.Memory }

        ensures same_files { honest_files self.new ≡ honest_files self.old }
        ensures same_reads { absent_reads self.new ≡ absent_reads self.old }
    {
        Ok(mem_files::paths(alloc, &self.files, root)?)
    }

    /// It fails exactly where the file is not there.
    fn read(&mut self, alloc: Global, root: &[u8], path: &[u8]) -> Result<Bytes, WorldErr>
        ensures ok { IfOk result
            (λ bytes. content root.now path.now (honest_files self.old) ≡ Some bytes) }
        ensures failed { IsErrOf result WorldErr.Failed
            ↔ (content root.now path.now (honest_files self.old) ≡ None) }
        ensures counts { CountsFaults WorldErr.Failed WorldErr.Memory
            (absent_reads self.old) (absent_reads self.new) result }
        ensures same_files { honest_files self.new ≡ honest_files self.old }
    {
        match mem_files::find(&self.files, root, path) {
            Some(bytes) => Ok(Bytes::from_slice(alloc, bytes.as_slice())?),
            None => {
                self.read_faults = self.read_faults.saturating_add(1);
                Err(WorldErr::Failed)
            }
        }
    }

    /// It answers an `Err` only for want of memory, and then all files are as before.
    #[tactic(auto, using(crate::proofs::Apart::put_file_apart))]
    fn write(
        &mut self,
        alloc: Global,
        root: &[u8],
        path: &[u8],
        bytes: &[u8],
    ) -> Result<(), WorldErr>
        ensures written { OnOk result (map_of (honest_files self.new)
            ≡ with_file root.now path.now bytes.now (map_of (honest_files self.old))) }
        ensures prefix { OnErr result (MayHoldPrefix root.now path.now bytes.now
            (Some (map_of (honest_files self.old))) (Some (map_of (honest_files self.new)))) }
        ensures ok { OnOk result
            (honest_files self.new
            ≡ put_file root.now path.now bytes.now (honest_files self.old)) }
        ensures err { OnErr result (honest_files self.new ≡ honest_files self.old) }
        ensures memory { IsOkUnless result WorldErr.Memory }
        ensures same_reads { absent_reads self.new ≡ absent_reads self.old }
    {
        Ok(mem_files::put(alloc, &mut self.files, root, path, bytes)?)
    }

    ghost tells = { λ _ _. refl };
}
