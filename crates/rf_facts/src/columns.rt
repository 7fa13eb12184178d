ghost use Rattle.std.specs.Prelude.{◌≡◌, ◌<◌, ◌-◌, ◌∷◌, ◌++◌, [], ℕ, None, length, take, OnOk, OnErr, slice_index_or};
ghost use Rattle.rf_facts.specs.Columns.{latest as spec_latest, stands};

use rf_text::Memory;
use std::alloc::Global;
use std::marker::Model;

/// The values of one argument, tuple by tuple, with an index of their places.
#[derive(Drop)]
pub struct Column {
    vals: Vec<u32>,
    /// For each value its last place.
    last: Vec<Option<u32>>,
    /// For each place the one before it with the same value.
    prev: Vec<Option<u32>>,
}

impl Model for Column {
    ghost use Rattle.std.specs.Prelude.{ℕ, List};
    ghost use Rattle.rf_facts.specs.Columns.{IsIndex};

    ghost Value = { List ℕ };

    ghost view = { λ column. column.vals.items };

    ghost invariant = { λ column. IsIndex column.vals.items column.last.items column.prev.items };
}

/// Makes room for the value in the list of last places.
fn grow(last: &mut Vec<Option<u32>>, value: u32) -> Result<(), Memory>
    ensures kept { (v : ℕ) → slice_index_or last.new.items v None
        ≡ slice_index_or last.old.items v None }
    ensures room { OnOk result (value < length last.new.items) }
{
    let wanted = value as usize + 1;
    if last.len() < wanted {
        last.resize(wanted, None)?;
    }
    Ok(())
}

impl Column {
    pub fn new(alloc: Global) -> Column
        ensures { result ≡ [] }
    {
        Column {
            vals: Vec::new(alloc),
            last: Vec::new(alloc),
            prev: Vec::new(alloc),
        }
    }

    pub fn push(&mut self, value: u32) -> Result<(), Memory>
        ensures ok { OnOk result (self.new ≡ self.old ++ value ∷ []) }
        ensures err { OnErr result (self.new ≡ self.old) }
    {
        let place = self.vals.len();
        if place >= u32::MAX as usize {
            return Err(Memory);
        }
        grow(&mut self.last, value)?;
        let before = self.last[value as usize];
        self.prev.reserve(1)?;
        self.vals.push(value)?;
        self.prev.push(before)?;
        self.last[value as usize] = Some(place as u32);
        Ok(())
    }

    /// Takes the last value away.
    pub fn pop(&mut self)
        ensures { self.new ≡ take (length self.old - 1) self.old }
    {
        let Some(value) = self.vals.pop() else {
            return;
        };
        let Some(before) = self.prev.pop() else {
            return;
        };
        self.last[value as usize] = before;
    }

    /// The last place of the value.
    pub fn latest(&self, value: u32) -> Option<u32>
        ensures { result ≡ spec_latest (stands self.now value) (length self.now) }
    {
        self.last.get(value as usize).copied().unwrap_or(None)
    }

    /// The place before this one with the same value.
    pub fn earlier(&self, place: u32) -> Option<u32>
        requires { place < length self.now }
        ensures { result ≡ spec_latest (stands self.now (slice_index_or self.now place 0)) place }
    {
        self.prev[place as usize]
    }
}
