//! A world and a sink that have no memory: each of their calls answers want of memory.
ghost use Rattle.std.specs.Prelude.{[], None, Some, false, refl};

use rf_text::{Bytes, List};
use rf_world::{Sink, SinkErr, World, WorldErr};
use std::alloc::Global;

/// A world without files.
#[derive(Drop)]
pub(crate) struct StarvedWorld;

impl World for StarvedWorld {
    ghost told = { λ _. Some (λ _ _. None) };

    ghost read_faults = { λ _. 0 };

    ghost write_faults = { λ _. 0 };

    ghost honest = { λ _. false };

    fn list(&mut self, _alloc: Global, _root: &[u8]) -> Result<List<Bytes>, WorldErr> {
        Err(WorldErr::Memory)
    }

    fn read(&mut self, _alloc: Global, _root: &[u8], _path: &[u8]) -> Result<Bytes, WorldErr> {
        Err(WorldErr::Memory)
    }

    fn write(
        &mut self,
        _alloc: Global,
        _root: &[u8],
        _path: &[u8],
        _bytes: &[u8],
    ) -> Result<(), WorldErr> {
        Err(WorldErr::Memory)
    }

    ghost tells = { λ _ _. refl };
}

/// A sink that takes no byte, and counts its puts.
#[derive(Drop)]
pub(crate) struct StarvedSink {
    pub puts: u64,
}

impl Sink for StarvedSink {
    ghost told = { λ _. Some [] };

    ghost faults = { λ _. 0 };

    ghost puts = { λ sink. sink.puts };

    fn put(&mut self, _alloc: Global, _bytes: &[u8]) -> Result<(), SinkErr> {
        self.puts = self.puts.saturating_add(1);
        Err(SinkErr::Memory)
    }
}
