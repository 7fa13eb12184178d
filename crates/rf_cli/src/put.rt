ghost use Rattle.std.specs.Prelude.{◌≡◌};
ghost use Rattle.rf_cli.specs.Put.{IsPut, PutsWriteFault, sink_state};

use crate::Status;
use rf_world::{Sink, SinkErr};
use std::alloc::Global;

/// Puts the line of a status in one call, and gives that status, or the one of a failed put.
pub(crate) fn put<S: Sink>(alloc: Global, out: &mut S, line: &[u8], status: Status) -> Status
    ensures { IsPut status line.now
        (sink_state (S.told out.old) (S.faults out.old) (S.puts out.old))
        (sink_state (S.told out.new) (S.faults out.new) (S.puts out.new)) result }
{
    match out.put(alloc, line) {
        Ok(()) => status,
        Err(SinkErr::Failed) => Status::WriteFault,
        Err(SinkErr::Memory) => Status::Memory,
    }
}

/// Puts `write fault` and gives the status of the write that failed, however the put ends.
pub(crate) fn put_write_fault<S: Sink>(alloc: Global, out: &mut S) -> Status
    ensures status { result ≡ Status.WriteFault }
    ensures puts { PutsWriteFault
        (sink_state (S.told out.old) (S.faults out.old) (S.puts out.old))
        (sink_state (S.told out.new) (S.faults out.new) (S.puts out.new)) }
{
    let _said = put(alloc, out, b"write fault\n", Status::WriteFault);
    Status::WriteFault
}
