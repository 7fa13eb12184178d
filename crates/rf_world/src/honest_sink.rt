ghost use Rattle.std.specs.Prelude.{◌≡◌, [], ◌++◌, Some, OnOk, OnErr, IsOkUnless};
ghost use Rattle.rf_world.specs.Fault.{next_count};

use crate::{Sink, SinkErr};
use rf_text::Bytes;
use std::alloc::Global;

/// A sink in memory, which tells its bytes and never fails.
#[derive(Drop)]
pub struct HonestSink {
    bytes: Bytes,
    puts: u64,
}

impl HonestSink {
    ghost use Rattle.rf_world.specs.Memory.{honest_bytes, honest_puts};

    /// A sink with no bytes.
    pub fn new(alloc: Global) -> HonestSink
        ensures bytes { honest_bytes result ≡ [] }
        ensures puts { honest_puts result ≡ 0 }
    {
        HonestSink {
            bytes: Bytes::new(alloc),
            puts: 0,
        }
    }

    /// The bytes so far.
    pub fn bytes(&self) -> &Bytes
        ensures { result.now ≡ honest_bytes self.now }
    {
        &self.bytes
    }
}

impl Sink for HonestSink {
    ghost use Rattle.rf_world.specs.Memory.{honest_bytes, honest_puts};

    ghost told = { λ sink. Some sink.bytes };

    ghost faults = { λ _. 0 };

    ghost puts = { λ sink. sink.puts };

    /// It answers an `Err` only for want of memory, and then no byte has been appended.
    fn put(&mut self, _alloc: Global, bytes: &[u8]) -> Result<(), SinkErr>
        ensures ok { OnOk result (honest_bytes self.new ≡ honest_bytes self.old ++ bytes.now) }
        ensures err { OnErr result (honest_bytes self.new ≡ honest_bytes self.old) }
        ensures memory { IsOkUnless result SinkErr.Memory }
        ensures call { honest_puts self.new ≡ next_count (honest_puts self.old) }
    {
        self.puts = self.puts.saturating_add(1);
        Ok(self.bytes.extend(bytes)?)
    }
}
