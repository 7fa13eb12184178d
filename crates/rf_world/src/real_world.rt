ghost use Rattle.std.specs.Prelude.{◌≡◌, None, false};
ghost use Rattle.rf_world.specs.Fault.{HasCause};

use crate::{World, WorldErr, real_files, real_folders};
use rf_text::{Bytes, List};
use std::alloc::Global;
use std::rt::Files;

/// The files of the system: a root is a folder, and a path goes down from it.
/// An empty root means the path alone.
///
/// It tells nothing of the files. A call fails where the system does, and where a root, a path or
/// a name that is listed is not UTF-8. `list` fails past 1,000,000 names, and `read` past
/// 1,073,741,824 bytes. `list` gives files alone: it follows a link to a file, and passes over
/// links to folders and all else. `write` makes missing folders.
#[derive(Drop)]
pub struct RealWorld<'a, R: Files + AllocGlobal + Clone + Drop> {
    rt: &'a R,
    read_faults: u64,
    write_faults: u64,
}

impl<'a, R: Files + AllocGlobal + Clone + Drop> RealWorld<'a, R> {
    /// The files of the system that `rt` stands for, with no call failed yet.
    pub fn new(rt: &'a R) -> RealWorld<'a, R>
        ensures reads { ⟦<RealWorld<'a, R> as World>⟧.read_faults result ≡ 0 }
        ensures writes { ⟦<RealWorld<'a, R> as World>⟧.write_faults result ≡ 0 }
    {
        RealWorld {
            rt,
            read_faults: 0,
            write_faults: 0,
        }
    }
}

impl<'a, R: Files + AllocGlobal + Clone + Drop> World for RealWorld<'a, R> {
    ghost told = { λ _. None };

    ghost read_faults = { λ world. world.read_faults };

    ghost write_faults = { λ world. world.write_faults };

    ghost honest = { λ _. false };

    fn list(&mut self, alloc: Global, root: &[u8]) -> Result<List<Bytes>, WorldErr> {
        let listed = real_folders::list(self.rt, alloc, root);
        count_fault(&mut self.read_faults, &listed);
        listed
    }

    fn read(&mut self, alloc: Global, root: &[u8], path: &[u8]) -> Result<Bytes, WorldErr> {
        let read = real_files::read(self.rt, alloc, root, path);
        count_fault(&mut self.read_faults, &read);
        read
    }

    fn write(
        &mut self,
        alloc: Global,
        root: &[u8],
        path: &[u8],
        bytes: &[u8],
    ) -> Result<(), WorldErr> {
        let written = real_files::write(self.rt, alloc, root, path, bytes);
        count_fault(&mut self.write_faults, &written);
        written
    }

    ghost tells = { λ _ honest. honest };
}

/// Raises the count of faults where the call failed.
fn count_fault<T>(faults: &mut u64, answer: &Result<T, WorldErr>)
    ensures { HasCause WorldErr.Failed WorldErr.Memory faults.old faults.new answer.now }
{
    if let Err(WorldErr::Failed) = answer {
        *faults = faults.saturating_add(1);
    }
}
