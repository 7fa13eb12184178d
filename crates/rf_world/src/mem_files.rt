//! A list of files in memory, which the worlds in memory share.
ghost use Rattle.std.specs.Prelude.{◌≡◌, ◌<◌, IfOk, OnOk, OnErr, length, position};
ghost use Rattle.std.specs.Option.{ForSome, option_copied};
ghost use Rattle.rf_world.specs.MemFiles.{content, is_at, paths_under, placed, put_file};

use rf_text::{Bytes, List, Memory};
use std::alloc::Global;

pub(crate) fn paths(
    alloc: Global,
    files: &List<(Bytes, Bytes, Bytes)>,
    root: &[u8],
) -> Result<List<Bytes>, Memory>
    ensures { IfOk result (λ paths. paths ≡ paths_under root.now files.now) }
{
    let mut paths = List::new(alloc);
    for file in files.as_slice() {
        if file.0.as_slice() == root {
            paths.push(Bytes::from_slice(alloc, file.1.as_slice())?)?;
        }
    }
    Ok(paths)
}

/// The bytes of the file at this root and path.
pub(crate) fn find<'a>(
    files: &'a List<(Bytes, Bytes, Bytes)>,
    root: &[u8],
    path: &[u8],
) -> Option<&'a Bytes>
    ensures { option_copied result ≡ content root.now path.now files.now }
{
    files
        .as_slice()
        .iter()
        .find(|file| stands_at(file, root, path))
        .map(|file| &file.2)
}

/// Adds the file or replaces its bytes.
pub(crate) fn put(
    alloc: Global,
    files: &mut List<(Bytes, Bytes, Bytes)>,
    root: &[u8],
    path: &[u8],
    bytes: &[u8],
) -> Result<(), Memory>
    ensures ok { OnOk result (files.new ≡ put_file root.now path.now bytes.now files.old) }
    ensures err { OnErr result (files.new ≡ files.old) }
{
    let file = (
        Bytes::from_slice(alloc, root)?,
        Bytes::from_slice(alloc, path)?,
        Bytes::from_slice(alloc, bytes)?,
    );
    let place = place_of(files.as_slice(), root, path);
    place_file(files, place, file)
}

fn place_file(
    files: &mut List<(Bytes, Bytes, Bytes)>,
    place: Option<usize>,
    file: (Bytes, Bytes, Bytes),
) -> Result<(), Memory>
    requires { ForSome place (λ at. at < length files.old) }
    ensures ok { OnOk result (files.new ≡ placed place file files.old) }
    ensures err { OnErr result (files.new ≡ files.old) }
{
    match place {
        None => files.push(file),
        Some(at) => {
            files.set(at, file);
            Ok(())
        }
    }
}

fn place_of(files: &[(Bytes, Bytes, Bytes)], root: &[u8], path: &[u8]) -> Option<usize>
    ensures place { result ≡ position (is_at root.now path.now) files.now }
    ensures within { ForSome result (λ at. at < length files.now) }
{
    files.iter().position(|file| stands_at(file, root, path))
}

fn stands_at(file: &(Bytes, Bytes, Bytes), root: &[u8], path: &[u8]) -> bool
    ensures { result ≡ is_at root.now path.now file.now }
{
    file.0.as_slice() == root && file.1.as_slice() == path
}
