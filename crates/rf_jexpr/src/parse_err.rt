ghost use Rattle.std.specs.Prelude.{◌≡◌};

use rf_text::Memory;
use std::alloc::{AllocError, AllocFailed};
use thiserror::Error;

/// Why there is no tree.
#[derive(Clone, Copy, Debug, PartialEq, Eq, Error)]
pub enum ParseErr {
    /// No tree that fits, and that is no deeper than the room, stands there.
    #[error("no tree that fits stands there")]
    NoTree,
    #[error("out of memory")]
    Memory,
}

impl From<Memory> for ParseErr {
    ghost use Rattle.rf_jexpr.specs.declared.parse_err.ParseErr.TheVariants.{Memory as WantOfMemory};

    ghost from_gives = { λ _ error. error ≡ WantOfMemory };

    fn from(_want: Memory) -> ParseErr {
        ParseErr::Memory
    }
}

impl From<AllocError> for ParseErr {
    ghost use Rattle.rf_jexpr.specs.declared.parse_err.ParseErr.TheVariants.{Memory as WantOfMemory};

    ghost from_gives = { λ _ error. error ≡ WantOfMemory };

    fn from(_refused: AllocError) -> ParseErr {
        ParseErr::Memory
    }
}

impl<T: Drop> From<AllocFailed<T>> for ParseErr {
    ghost use Rattle.rf_jexpr.specs.declared.parse_err.ParseErr.TheVariants.{Memory as WantOfMemory};

    ghost from_gives = { λ _ error. error ≡ WantOfMemory };

    fn from(_refused: AllocFailed<T>) -> ParseErr {
        ParseErr::Memory
    }
}
