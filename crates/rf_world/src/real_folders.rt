//! The folders of the system, read for the paths of the files below a root.
ghost use Rattle.std.specs.Prelude.{◌+◌, ◌≤◌, IfOk, vec_len};
ghost use Rattle.rf_world.specs.World.{AreDistinct};

use crate::WorldErr;
use crate::real_paths::{fault, joined, text};
use indexmap::IndexSet;
use rf_text::{Bytes, List};
use std::alloc::Global;
use std::fs;
use std::fs::DirEntry;
use std::rt::Files;

/// The most names that a listing may come across.
const MOST_NAMES: u32 = 1_000_000;

/// How far a listing has come.
#[derive(Drop)]
struct Walk {
    /// The paths of the files so far, relative to the root.
    paths: IndexSet<Vec<u8>>,
    /// The folders that are still to be read, relative to the root.
    folders: Vec<String>,
    /// How many more names may come.
    names_left: u32,
}

/// The paths of the files below the root, each once. An empty root means the working folder.
pub(crate) fn list<R: Files + AllocGlobal + Clone + Drop>(
    rt: &R,
    alloc: Global,
    root: &[u8],
) -> Result<List<Bytes>, WorldErr>
    ensures { IfOk result AreDistinct }
{
    let root = text(root)?;
    let root = if root.is_empty() { "." } else { root };
    let mut walk = Walk {
        paths: IndexSet::new(alloc),
        folders: Vec::new(alloc),
        names_left: MOST_NAMES,
    };
    walk.folders.push(String::new(alloc))?;
    while let Some(folder) = walk.folders.pop() {
        walk.read_folder(rt, alloc, root, folder.as_str())?;
    }
    copied(alloc, &walk.paths)
}

impl Walk {
    fn read_folder<R: Files + AllocGlobal + Clone + Drop>(
        &mut self,
        rt: &R,
        alloc: Global,
        root: &str,
        folder: &str,
    ) -> Result<(), WorldErr>
        ensures { vec_len self.new.folders + self.new.names_left
            ≤ vec_len self.old.folders + self.old.names_left }
    {
        let place = joined(alloc, root, folder)?;
        for entry in fs::read_dir(rt, place.as_str()).map_err(fault)? {
            let entry = entry.map_err(fault)?;
            self.add_entry(rt, alloc, folder, &entry)?;
        }
        Ok(())
    }

    /// Lists a file, also one that a link leads to, and notes a folder to be read later.
    /// A link to a folder is passed over, and so is a pipe, or a link that leads nowhere.
    fn add_entry<R: Files + AllocGlobal + Clone + Drop>(
        &mut self,
        rt: &R,
        alloc: Global,
        folder: &str,
        entry: &DirEntry<R, Global>,
    ) -> Result<(), WorldErr>
        ensures { vec_len self.new.folders + self.new.names_left
            ≤ vec_len self.old.folders + self.old.names_left }
    {
        if self.names_left == 0 {
            return Err(WorldErr::Failed);
        }
        self.names_left -= 1;
        let kind = entry.file_type().map_err(fault)?;
        let path = joined(alloc, folder, entry.file_name())?;
        if kind.is_dir() {
            self.folders.push(path)?;
        } else if kind.is_file() || (kind.is_symlink() && leads_to_file(rt, entry)) {
            self.paths.insert(path.into_bytes())?;
        }
        Ok(())
    }
}

fn leads_to_file<R: Files + AllocGlobal + Clone + Drop>(
    rt: &R,
    link: &DirEntry<R, Global>,
) -> bool {
    match fs::metadata(rt, link.path()) {
        Ok(target) => target.is_file(),
        Err(_) => false,
    }
}

fn copied(alloc: Global, paths: &IndexSet<Vec<u8>>) -> Result<List<Bytes>, WorldErr>
    ensures { IfOk result AreDistinct }
{
    let mut copies = List::new(alloc);
    for path in paths.as_slice() {
        copies.push(Bytes::from_slice(alloc, path.as_slice())?)?;
    }
    Ok(copies)
}
