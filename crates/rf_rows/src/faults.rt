//! What is put, and how often, where a call fails or memory is wanted.
use crate::example::{APPLY, ends, failing_sink, failing_world, is_filled};
use crate::first_form::ALONE;
use crate::starved::{StarvedSink, StarvedWorld};
use rf_cli::Status;
use rf_text::Memory;
use rf_world::{MemSink, MemWorld, Sink, SinkErr, World};
use std::alloc::Global;
use std::test::Fail;

/// The number of the call of the world that writes, in the run over `ALONE`.
const WRITE: u64 = 3;

/// A world with one class and its request, where the calls of these numbers fail.
fn one_file(alloc: Global, failing: &[u64]) -> Result<MemWorld, Memory> {
    let mut world = failing_world(alloc, failing)?;
    if is_filled(alloc, &mut world, ALONE) {
        Ok(world)
    } else {
        Err(Memory)
    }
}

/// Whether the next put is one that fails.
fn fails_next(alloc: Global, sink: &mut MemSink) -> bool {
    match sink.put(alloc, b"next") {
        Ok(()) => false,
        Err(error) => error == SinkErr::Failed,
    }
}

/// Whether the run over the world ends with this status and puts this line, where the puts of these numbers fail, and the
/// next put is one that fails.
fn is_told<W: World>(
    alloc: Global,
    world: &mut W,
    failing: &[u64],
    status: Status,
    line: &[u8],
) -> Result<bool, Memory> {
    let mut sink = failing_sink(alloc, failing)?;
    let ends = ends(alloc, APPLY, world, &mut sink, status.code())?;
    Ok(ends && sink.bytes().as_slice() == line && fails_next(alloc, &mut sink))
}

#[test]
fn a_failing_write_is_told_once(rt: HostRuntime) -> Result<(), Fail> {
    let mut world = one_file(rt.alloc(), &[WRITE])?;
    let told = is_told(
        rt.alloc(),
        &mut world,
        &[1],
        Status::WriteFault,
        b"write fault\n",
    )?;
    assert!(rt; told);
    Ok(())
}

/// Whether nothing is put where the first put fails, and no further one made.
fn is_put_once(alloc: Global, failing: &[u64]) -> Result<bool, Memory> {
    let mut world = one_file(alloc, failing)?;
    is_told(alloc, &mut world, &[0, 1], Status::WriteFault, b"")
}

#[test]
fn a_failing_put_is_not_made_again(rt: HostRuntime) -> Result<(), Fail> {
    assert!(rt; is_put_once(rt.alloc(), &[])?);
    assert!(rt; is_put_once(rt.alloc(), &[WRITE])?);
    Ok(())
}

#[test]
fn where_memory_is_wanted_nothing_is_put(rt: HostRuntime) -> Result<(), Fail> {
    assert!(rt; is_told(rt.alloc(), &mut StarvedWorld, &[0], Status::Memory, b"")?);
    Ok(())
}

/// How often a sink without memory is asked in a run that ends with this status; 9 where it ends with another one.
fn puts(alloc: Global, failing: &[u64], status: Status) -> Result<u64, Memory> {
    let mut world = one_file(alloc, failing)?;
    let mut sink = StarvedSink { puts: 0 };
    if ends(alloc, APPLY, &mut world, &mut sink, status.code())? {
        Ok(sink.puts)
    } else {
        Ok(9)
    }
}

#[test]
fn a_put_that_wants_memory_is_not_made_again(rt: HostRuntime) -> Result<(), Fail> {
    assert_eq!(rt; puts(rt.alloc(), &[], Status::Memory)?, 1);
    assert_eq!(rt; puts(rt.alloc(), &[WRITE], Status::WriteFault)?, 1);
    Ok(())
}

#[test]
fn the_exit_statuses_of_faults(rt: HostRuntime) {
    assert!(rt; Status::WriteFault.code() == 8 && Status::Memory.code() == 9);
}
