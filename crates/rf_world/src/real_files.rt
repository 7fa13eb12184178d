//! The files of the system, opened, and read and written whole.

use crate::WorldErr;
use crate::real_paths::{fault, full_path};
use crate::streams::{read_whole, write_whole};
use rf_text::Bytes;
use std::alloc::Global;
use std::fs::OpenFile;
use std::io::ErrorKind;
use std::rt::Files;
use std::{fs, io};

/// The bytes of the file, up to where no byte comes.
pub(crate) fn read<R: Files>(
    rt: &R,
    alloc: Global,
    root: &[u8],
    path: &[u8],
) -> Result<Bytes, WorldErr> {
    let path = full_path(alloc, root, path)?;
    let file = fs::open(rt, path.as_str()).map_err(fault)?;
    let size = file.metadata().map_or(0, |metadata| metadata.len());
    let bytes = read_whole(alloc, file, size)?;
    Ok(Bytes::from_vec(alloc, bytes)?)
}

/// Makes the file or replaces its bytes, and makes the folders that it needs.
pub(crate) fn write<R: Files>(
    rt: &R,
    alloc: Global,
    root: &[u8],
    path: &[u8],
    bytes: &[u8],
) -> Result<(), WorldErr> {
    let path = full_path(alloc, root, path)?;
    let mut file = create(rt, path.as_str()).map_err(fault)?;
    write_whole(&mut file, bytes)
}

fn create<R: Files>(rt: &R, path: &str) -> io::Result<R::File> {
    match fs::create(rt, path) {
        Err(error) if error.kind() == ErrorKind::NotFound => {
            if let Some((folder, _)) = path.rsplit_once('/') {
                fs::create_dir_all(rt, folder)?;
            }
            fs::create(rt, path)
        }
        created => created,
    }
}
