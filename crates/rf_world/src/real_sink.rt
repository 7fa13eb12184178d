ghost use Rattle.std.specs.Prelude.{◌≡◌, None};

use crate::{Sink, SinkErr};
use std::alloc::Global;
use std::io::ErrorKind;

/// The standard output. It tells nothing of the bytes, and fails where the system does.
#[derive(Drop)]
pub struct RealSink<'a, R: Print> {
    rt: &'a R,
    faults: u64,
    puts: u64,
}

impl<'a, R: Print> RealSink<'a, R> {
    /// The standard output of the system that `rt` stands for, with no call failed yet.
    pub fn new(rt: &'a R) -> RealSink<'a, R>
        ensures faults { ⟦<RealSink<'a, R> as Sink>⟧.faults result ≡ 0 }
        ensures puts { ⟦<RealSink<'a, R> as Sink>⟧.puts result ≡ 0 }
    {
        RealSink {
            rt,
            faults: 0,
            puts: 0,
        }
    }
}

impl<'a, R: Print> Sink for RealSink<'a, R> {
    ghost told = { λ _. None };

    ghost faults = { λ sink. sink.faults };

    ghost puts = { λ sink. sink.puts };

    fn put(&mut self, _alloc: Global, bytes: &[u8]) -> Result<(), SinkErr> {
        self.puts = self.puts.saturating_add(1);
        match self.rt.write_all(bytes) {
            Ok(()) => Ok(()),
            Err(error) if error.kind() == ErrorKind::OutOfMemory => Err(SinkErr::Memory),
            Err(_) => {
                self.faults = self.faults.saturating_add(1);
                Err(SinkErr::Failed)
            }
        }
    }
}
