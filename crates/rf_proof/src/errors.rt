use rf_text::Memory;
use std::alloc::{AllocError, AllocFailed};

/// Why a text isn't read: it isn't that of a refutation from this line on, counted from 1; or want of memory.
#[derive(Clone, Copy, Debug)]
pub enum TextErr {
    BadText { line: u64 },
    Memory,
}

impl From<Memory> for TextErr {
    ghost use Rattle.std.specs.Prelude.{◌≡◌};
    ghost use Rattle.rf_proof.specs.declared.errors.TextErr.TheVariants.{Memory as NoMemory};

    ghost from_gives = { λ _ error. error ≡ NoMemory };

    fn from(_refused: Memory) -> TextErr {
        TextErr::Memory
    }
}
