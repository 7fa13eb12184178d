ghost use Rattle.std.specs.Prelude.{◌≡◌, ◌≤◌, ◌++◌, length, IfOk};

use crate::Memory;
use std::alloc::Global;
use std::marker::Model;

/// The most bytes of a short text. With them it is as large as a pointer and a length.
pub(crate) const MOST_SHORT: usize = 14;

/// A text of few bytes, in the value itself.
#[derive(Debug, Drop)]
pub(crate) struct Short {
    len: u8,
    bytes: [u8; 14],
}

impl Model for Short {
    ghost use Rattle.std.specs.Prelude.{ℕ, List, ◌≤◌, take};

    ghost Value = { List ℕ };

    ghost view = { λ short. take short.len short.bytes };

    ghost invariant = { λ short. short.len ≤ 14 };
}

impl Short {
    pub(crate) fn of(bytes: &[u8]) -> Short
        requires { length bytes.now ≤ 14 }
        ensures { result ≡ bytes.now }
    {
        let mut places = [0; 14];
        places[..bytes.len()].copy_from_slice(bytes);
        Short {
            len: bytes.len() as u8,
            bytes: places,
        }
    }

    pub(crate) fn copy(&self) -> Short
        ensures { result ≡ self.now }
    {
        Short {
            len: self.len,
            bytes: self.bytes,
        }
    }

    pub(crate) fn as_slice(&self) -> &[u8]
        ensures { result.now ≡ self.now }
    {
        &self.bytes[..self.len as usize]
    }

    /// The bytes and `more` behind them.
    pub(crate) fn followed_by(&self, alloc: Global, more: &[u8]) -> Result<Vec<u8>, Memory>
        ensures { IfOk result (λ items. items.items ≡ self.now ++ more.now) }
    {
        let mut items = Vec::from_slice(alloc, self.as_slice())?;
        items.extend_from_slice(more)?;
        Ok(items)
    }
}
