ghost use Rattle.std.specs.Prelude.{◌≡◌, [], ◌∷◌, ◌++◌, length, ◌↔◌, IsTrue, IfOk, OnOk, OnErr};

use crate::Memory;
use crate::short::{MOST_SHORT, Short};
use std::alloc::Global;
use std::marker::Model;

/// Where the bytes of a text stand: few of them in the value itself, so that most tokens take no memory for their texts.
#[derive(Debug, Drop)]
enum Place {
    Short(Short),
    Long(Box<Vec<u8>>),
}

/// A byte string that contracts see as the list of its bytes.
#[derive(Debug)]
pub struct Bytes {
    alloc: Global,
    place: Place,
}

impl Model for Bytes {
    ghost use Rattle.std.specs.Prelude.{ℕ, List};
    ghost use Rattle.rf_text.specs.Bytes.{bytes_at};

    ghost Value = { List ℕ };

    ghost view = { λ text. bytes_at text.place };
}

// Written out, so that a caller's proof sees one call, wherever the bytes stand.
impl Drop for Bytes {
    fn drop(self) {
        let Bytes {
            alloc: _alloc,
            place: _place,
        } = self;
    }
}

impl Bytes {
    pub fn new(alloc: Global) -> Bytes
        ensures { result ≡ [] }
    {
        Bytes {
            alloc,
            place: Place::Short(Short::of(&[])),
        }
    }

    pub fn from_slice(alloc: Global, bytes: &[u8]) -> Result<Bytes, Memory>
        ensures { IfOk result (λ text. text ≡ bytes.now) }
    {
        if bytes.len() <= MOST_SHORT {
            let place = Place::Short(Short::of(bytes));
            return Ok(Bytes { alloc, place });
        }
        let items = Vec::from_slice(alloc, bytes)?;
        Bytes::from_vec(alloc, items)
    }

    pub fn from_vec(alloc: Global, items: Vec<u8>) -> Result<Bytes, Memory>
        ensures { IfOk result (λ text. text ≡ items.items) }
    {
        let place = Place::Long(Box::new(alloc, items)?);
        Ok(Bytes { alloc, place })
    }

    /// The same text once more.
    pub fn copy(&self, alloc: Global) -> Result<Bytes, Memory>
        ensures { IfOk result (λ text. text ≡ self.now) }
    {
        match &self.place {
            Place::Short(short) => Ok(Bytes {
                alloc,
                place: Place::Short(short.copy()),
            }),
            Place::Long(items) => {
                let items = Vec::from_slice(alloc, items.as_slice())?;
                Bytes::from_vec(alloc, items)
            }
        }
    }

    pub fn as_slice(&self) -> &[u8]
        ensures { result.now ≡ self.now }
    {
        match &self.place {
            Place::Short(short) => short.as_slice(),
            Place::Long(items) => items.as_slice(),
        }
    }

    pub fn len(&self) -> usize
        ensures { result ≡ length self.now }
    {
        self.as_slice().len()
    }

    pub fn is_empty(&self) -> bool
        ensures { IsTrue result ↔ (self.now ≡ []) }
    {
        self.as_slice().is_empty()
    }

    pub fn push(&mut self, byte: u8) -> Result<(), Memory>
        ensures ok { OnOk result (self.new ≡ self.old ++ byte ∷ []) }
        ensures err { OnErr result (self.new ≡ self.old) }
    {
        self.extend(&[byte])
    }

    /// Puts `more` at the end.
    pub fn extend(&mut self, more: &[u8]) -> Result<(), Memory>
        ensures ok { OnOk result (self.new ≡ self.old ++ more.now) }
        ensures err { OnErr result (self.new ≡ self.old) }
    {
        let items = match &mut self.place {
            Place::Long(items) => {
                items.extend_from_slice(more)?;
                return Ok(());
            }
            Place::Short(short) => short.followed_by(self.alloc, more)?,
        };
        self.place = Place::Long(Box::new(self.alloc, items)?);
        Ok(())
    }
}
