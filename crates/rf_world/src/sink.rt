ghost use Rattle.std.specs.Prelude.{◌≡◌, ℕ, List as Items, Option, ◌++◌, OnOk, OnErr, option_map, take};
ghost use Rattle.rf_world.specs.Fault.{HasCause, next_count};

use rf_text::Memory;
use std::alloc::{AllocError, AllocFailed, Global};
use thiserror::Error;

/// Why a sink did not take all bytes.
#[derive(Clone, Copy, Debug, PartialEq, Eq, Error)]
pub enum SinkErr {
    /// The sink could not take them, and its count has risen.
    #[error("writing the output failed")]
    Failed,
    /// Want of memory, which any call may answer.
    #[error("out of memory")]
    Memory,
}

impl From<Memory> for SinkErr {
    ghost use Rattle.rf_world.specs.declared.sink.SinkErr.TheVariants.{Memory as WantOfMemory};

    ghost from_gives = { λ _ error. error ≡ WantOfMemory };

    fn from(_want: Memory) -> SinkErr {
        SinkErr::Memory
    }
}

impl From<AllocError> for SinkErr {
    ghost use Rattle.rf_world.specs.declared.sink.SinkErr.TheVariants.{Memory as WantOfMemory};

    ghost from_gives = { λ _ error. error ≡ WantOfMemory };

    fn from(_refused: AllocError) -> SinkErr {
        SinkErr::Memory
    }
}

impl<T: Drop> From<AllocFailed<T>> for SinkErr {
    ghost use Rattle.rf_world.specs.declared.sink.SinkErr.TheVariants.{Memory as WantOfMemory};

    ghost from_gives = { λ _ error. error ≡ WantOfMemory };

    fn from(_refused: AllocFailed<T>) -> SinkErr {
        SinkErr::Memory
    }
}

/// Where output goes, in order. A sink may tell the bytes that it has received so far.
/// It counts its calls, and those that failed, up to 2^64 - 1 each.
pub trait Sink {
    /// The bytes so far, where the sink tells them.
    ghost told: { Self → Option (Items ℕ) };

    /// The calls that failed.
    ghost faults: { Self → ℕ };

    /// The calls of `put`, failed ones too.
    ghost puts: { Self → ℕ };

    /// Appends the bytes. After an `Err` a prefix of them has been appended.
    fn put(&mut self, alloc: Global, bytes: &[u8]) -> Result<(), SinkErr>
        ensures ok { OnOk result
            (told self.new ≡ option_map (λ received. received ++ bytes.now) (told self.old)) }
        ensures err { OnErr result ((count : ℕ) × (told self.new
            ≡ option_map (λ received. received ++ take count bytes.now) (told self.old))) }
        ensures cause { HasCause SinkErr.Failed SinkErr.Memory
            (faults self.old) (faults self.new) result }
        ensures call { puts self.new ≡ next_count (puts self.old) };
}
