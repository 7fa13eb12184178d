use rf_cli::run;
use rf_text::{Bytes, List, Memory};
use rf_world::{MemSink, MemWorld, Sink, World};
use std::alloc::Global;
use std::process::Abort;
use std::test::Fail;

/// One run: what it is given, and what must come of it.
#[derive(Clone, Copy)]
pub struct Example<'a> {
    pub name: &'a str,
    pub words: &'a [&'a str],
    /// Root, path and bytes of each file before the run.
    pub files: &'a [(&'a str, &'a str, &'a [u8])],
    /// The numbers, from 0, of the calls of the world that fail.
    pub failing: &'a [u64],
    /// The numbers, from 0, of the puts that fail.
    pub failing_puts: &'a [u64],
    pub status: u8,
    pub line: &'a str,
    /// Root, path and bytes of the one file that the run makes, if it makes one.
    pub written: Option<(&'a str, &'a str, &'a [u8])>,
}

/// The words of a plain run.
pub const APPLY: &[&str] = &["apply", "src", "-", "out", "req"];

pub(crate) fn words(alloc: Global, words: &[&str]) -> Result<List<Bytes>, Memory> {
    let mut list = List::new(alloc);
    for word in words {
        list.push(Bytes::from_slice(alloc, word.as_bytes())?)?;
    }
    Ok(list)
}

fn numbers(alloc: Global, numbers: &[u64]) -> Result<List<u64>, Memory> {
    let mut list = List::new(alloc);
    for number in numbers {
        list.push(*number)?;
    }
    Ok(list)
}

/// A world in which the calls of these numbers fail.
pub(crate) fn failing_world(alloc: Global, failing: &[u64]) -> Result<MemWorld, Memory> {
    Ok(MemWorld::new(alloc, numbers(alloc, failing)?))
}

/// A sink at which the puts of these numbers fail.
pub(crate) fn failing_sink(alloc: Global, failing: &[u64]) -> Result<MemSink, Memory> {
    Ok(MemSink::new(alloc, numbers(alloc, failing)?))
}

/// Puts the files into the world, and says whether there was memory for them.
pub(crate) fn is_filled(
    alloc: Global,
    world: &mut MemWorld,
    files: &[(&str, &str, &[u8])],
) -> bool {
    for (root, path, bytes) in files {
        let put = world.put_file(alloc, root.as_bytes(), path.as_bytes(), bytes);
        if put.is_err() {
            return false;
        }
    }
    true
}

/// Whether this file stands in the world with these bytes.
pub(crate) fn stands(world: &MemWorld, root: &str, path: &str, bytes: &[u8]) -> bool {
    for file in world.files().as_slice() {
        if file.0.as_slice() == root.as_bytes() && file.1.as_slice() == path.as_bytes() {
            return file.2.as_slice() == bytes;
        }
    }
    false
}

/// Whether these files stand in the world, and beside them exactly what was written.
fn are_all(
    world: &MemWorld,
    files: &[(&str, &str, &[u8])],
    written: Option<(&str, &str, &[u8])>,
) -> bool {
    for (root, path, bytes) in files {
        if !stands(world, root, path, bytes) {
            return false;
        }
    }
    match written {
        Some((root, path, bytes)) => {
            stands(world, root, path, bytes) && world.files().len() == files.len().wrapping_add(1)
        }
        None => world.files().len() == files.len(),
    }
}

/// Whether the run over the world ends with this status and puts this line into the sink.
pub(crate) fn ends<W: World, S: Sink>(
    alloc: Global,
    given: &[&str],
    world: &mut W,
    sink: &mut S,
    status: u8,
) -> Result<bool, Memory> {
    let words = words(alloc, given)?;
    Ok(run(alloc, words.as_slice(), world, sink).code() == status)
}

/// Whether the run over the world ends with the example's status and puts its line.
fn says(alloc: Global, example: &Example<'_>, world: &mut MemWorld) -> Result<bool, Memory> {
    let mut sink = failing_sink(alloc, example.failing_puts)?;
    let ends = ends(alloc, example.words, world, &mut sink, example.status)?;
    Ok(ends && sink.bytes().as_slice() == example.line.as_bytes())
}

/// Whether the example over a world and a sink in memory gives its status, its line and every file.
fn holds(alloc: Global, example: &Example<'_>) -> Result<bool, Memory> {
    let mut world = failing_world(alloc, example.failing)?;
    if !is_filled(alloc, &mut world, example.files) {
        return Err(Memory);
    }
    let says = says(alloc, example, &mut world)?;
    Ok(says && are_all(&world, example.files, example.written))
}

pub(crate) fn check<R: Abort + AllocGlobal>(rt: &R, examples: &[Example<'_>]) -> Result<(), Fail> {
    for example in examples {
        let name = example.name;
        assert!(rt; holds(rt.alloc(), example)?, "{name}");
    }
    Ok(())
}
