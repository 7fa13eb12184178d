ghost use Rattle.std.specs.Prelude.{◌≡◌, ◌↔◌, [], ◌++◌, Some, IsErrOf, OnOk, OnErr};
ghost use Rattle.rf_world.specs.Fault.{CountsFaults};

use crate::calls::Calls;
use crate::{Sink, SinkErr};
use rf_text::{Bytes, List};
use std::alloc::Global;

/// A sink in memory, which tells its bytes, and of which chosen calls fail.
/// The calls of `put` are numbered from 0 in their order, failed ones too.
#[derive(Drop)]
pub struct MemSink {
    bytes: Bytes,
    calls: Calls,
    faults: u64,
}

impl MemSink {
    ghost use Rattle.rf_world.specs.Calls.{calls_made, failing_calls};
    ghost use Rattle.rf_world.specs.Memory.{failed_puts, sink_bytes, sink_calls};

    /// A sink with no bytes, whose calls with a number in `failing` fail.
    pub fn new(alloc: Global, failing: List<u64>) -> MemSink
        ensures bytes { sink_bytes result ≡ [] }
        ensures failing { failing_calls (sink_calls result) ≡ failing }
        ensures calls { calls_made (sink_calls result) ≡ 0 }
        ensures failed { failed_puts result ≡ 0 }
    {
        MemSink {
            bytes: Bytes::new(alloc),
            calls: Calls::new(failing),
            faults: 0,
        }
    }

    /// The bytes so far.
    pub fn bytes(&self) -> &Bytes
        ensures { result.now ≡ sink_bytes self.now }
    {
        &self.bytes
    }
}

impl Sink for MemSink {
    ghost use Rattle.rf_world.specs.Calls.{CountsOneCall, FailsNext};
    ghost use Rattle.rf_world.specs.Memory.{failed_puts, sink_bytes, sink_calls};

    ghost told = { λ sink. Some sink.bytes };

    ghost faults = { λ sink. sink.faults };

    ghost puts = { λ sink. sink.calls.made };

    /// It fails exactly where it is a failing call. After an `Err` no byte has been appended.
    fn put(&mut self, _alloc: Global, bytes: &[u8]) -> Result<(), SinkErr>
        ensures ok { OnOk result (sink_bytes self.new ≡ sink_bytes self.old ++ bytes.now) }
        ensures err { OnErr result (sink_bytes self.new ≡ sink_bytes self.old) }
        ensures failed { IsErrOf result SinkErr.Failed ↔ FailsNext (sink_calls self.old) }
        ensures counts { CountsFaults SinkErr.Failed SinkErr.Memory
            (failed_puts self.old) (failed_puts self.new) result }
        ensures call { CountsOneCall (sink_calls self.old) (sink_calls self.new) }
    {
        if self.calls.begin() {
            self.faults = self.faults.saturating_add(1);
            return Err(SinkErr::Failed);
        }
        Ok(self.bytes.extend(bytes)?)
    }
}
