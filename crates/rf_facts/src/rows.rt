ghost use Rattle.std.specs.Prelude.{◌≡◌, ◌<◌, ◌∷◌, ◌++◌, [], length, ◌^◌, All, OnOk, OnErr, slice_index_or};

use rf_text::Memory;
use std::alloc::Global;
use std::marker::Model;

/// Tuples of one length in a single block of memory. Contracts see the list of them.
#[derive(Drop)]
pub struct Rows {
    cells: Vec<u32>,
    width: usize,
    count: usize,
}

impl Model for Rows {
    ghost use Rattle.std.specs.Prelude.{◌≡◌, ◌<◌, ◌*◌, ◌^◌, ℕ, List, length};
    ghost use Rattle.rf_facts.specs.Rows.{pieces};

    ghost Value = { List (List ℕ) };

    ghost view = { λ rows. pieces rows.width rows.count rows.cells.items };

    ghost invariant = { λ rows. (length rows.cells.items ≡ rows.count * rows.width)
        × (rows.count < 2 ^ 32) };
}

impl Rows {
    pub fn new(alloc: Global) -> Rows
        ensures { result ≡ [] }
    {
        Rows {
            cells: Vec::new(alloc),
            width: 0,
            count: 0,
        }
    }

    pub fn len(&self) -> usize
        ensures len { result ≡ length self.now }
        ensures small { result < 2 ^ 32 }
    {
        self.count
    }

    pub fn push(&mut self, tuple: &[u32]) -> Result<(), Memory>
        requires { All (λ row. length row ≡ length tuple.now) self.old }
        ensures ok { OnOk result (self.new ≡ self.old ++ tuple.now ∷ []) }
        ensures err { OnErr result (self.new ≡ self.old) }
    {
        if self.count >= u32::MAX as usize {
            return Err(Memory);
        }
        self.cells.extend_from_slice(tuple)?;
        self.width = tuple.len();
        self.count += 1;
        Ok(())
    }

    pub fn row(&self, place: usize) -> &[u32]
        requires { place < length self.now }
        ensures { result.now ≡ slice_index_or self.now place [] }
    {
        let (_, rest) = self.cells.as_slice().split_at(place * self.width);
        let (row, _) = rest.split_at(self.width);
        row
    }
}
