//! Properties by their elements.
ghost use Rattle.std.specs.Prelude.{◌≡◌, ℕ, ◌≤◌, ◌^◌, ◌&&◌, length, nat_eq, IfOk, OnOk};
ghost use Rattle.std.specs.List.{list_any};
ghost use Rattle.rf_facts.specs.declared.properties.PropTable.{PropTable};
ghost use Rattle.rf_inst.specs.Values.{is_of, is_slot, now_of, old_of};
ghost use Rattle.rf_make.specs.Meanings.{meant};
ghost use Rattle.rf_make.specs.Indexes.{IsIndex, Puts, PutsRow, PutsRows, outside as spec_outside, own as spec_own};

use crate::meanings::Meaning;
use indexmap::IndexMap;
use rf_facts::{PropRow, PropTable};
use rf_form::Term;
use rf_text::Memory;
use std::alloc::Global;

/// The value of a property, and its old value.
#[derive(Clone, Copy)]
pub struct Entry {
    pub now: Term,
    pub old: Term,
}

/// The properties of a table by their elements, and its imports by their units and types.
#[derive(Drop)]
pub struct Index {
    values: IndexMap<(u32, u32), Entry>,
    slots: IndexMap<(u32, u32), Entry>,
}

/// An entry for a key that has none yet.
fn put(map: &mut IndexMap<(u32, u32), Entry>, key: (u32, u32), entry: Entry) -> Result<(), Memory>
    ensures { OnOk result
        (Puts map.old map.new (λ a b. nat_eq key.0 a && nat_eq key.1 b) entry) }
{
    if map.contains_key(&key) {
        return Ok(());
    }
    map.insert(key, entry)?;
    Ok(())
}

/// An entry for the number with each of the elements.
fn put_each(
    map: &mut IndexMap<(u32, u32), Entry>,
    first: u32,
    elems: &[u32],
    entry: Entry,
) -> Result<(), Memory>
    ensures { OnOk result (Puts map.old map.new
        (λ a b. nat_eq first a && list_any (nat_eq b) elems.now) entry) }
{
    for n in elems {
        put(map, (first, *n), entry)?;
    }
    Ok(())
}

/// An entry for each two of the elements.
fn put_pairs(
    map: &mut IndexMap<(u32, u32), Entry>,
    elems: &[u32],
    entry: Entry,
) -> Result<(), Memory>
    ensures { OnOk result (Puts map.old map.new
        (λ a b. list_any (nat_eq a) elems.now && list_any (nat_eq b) elems.now) entry) }
{
    for n in elems {
        put_each(map, *n, elems, entry)?;
    }
    Ok(())
}

/// An entry for an import.
fn put_slot(
    map: &mut IndexMap<(u32, u32), Entry>,
    row: &PropRow,
    entry: Entry,
) -> Result<(), Memory>
    ensures { OnOk result (Puts map.old map.new (λ a b. is_slot a b row.now) entry) }
{
    if row.prop != 5 {
        return Ok(());
    }
    put_pairs(map, row.elems.as_slice(), entry)
}

/// An entry for a row.
fn put_row(index: &mut Index, row: &PropRow, entry: Entry) -> Result<(), Memory>
    ensures { OnOk result (PutsRow index.old row.now entry index.new) }
{
    put_each(
        &mut index.values,
        u32::from(row.prop),
        row.elems.as_slice(),
        entry,
    )?;
    put_slot(&mut index.slots, row, entry)
}

/// What is known of a row of the project.
fn own(x: u32, row: &PropRow) -> Entry
    ensures { result ≡ spec_own x row.now }
{
    Entry {
        now: Term::Var(x),
        old: Term::Const(row.old),
    }
}

/// What is known of a row of an element outside the project.
fn outside(row: &PropRow) -> Entry
    ensures { result ≡ spec_outside row.now }
{
    let value = Term::Const(row.vals.get(0).copied().unwrap_or(0));
    Entry {
        now: value,
        old: value,
    }
}

/// The rows of the project, whose places are the numbers of their variables.
fn put_own(index: &mut Index, rows: &[PropRow]) -> Result<(), Memory>
    requires { length rows.now ≤ 2 ^ 32 }
    ensures { OnOk result (PutsRows index.old spec_own rows.now index.new) }
{
    for x in 0..rows.len() {
        let row = &rows[x];
        put_row(index, row, own(x as u32, row))?;
    }
    Ok(())
}

/// The rows of elements outside the project.
fn put_outside(index: &mut Index, rows: &[PropRow]) -> Result<(), Memory>
    ensures { OnOk result (PutsRows index.old (λ _ row. spec_outside row) rows.now index.new) }
{
    for row in rows {
        put_row(index, row, outside(row))?;
    }
    Ok(())
}

/// The index of a table.
pub fn index_of(alloc: Global, table: &PropTable) -> Result<Index, Memory>
    ensures { IfOk result (λ index. IsIndex table.now index) }
{
    if table.rows.len() > u32::MAX as usize {
        return Err(Memory);
    }
    let mut index = Index {
        values: IndexMap::new(alloc),
        slots: IndexMap::new(alloc),
    };
    put_own(&mut index, table.rows.as_slice())?;
    put_outside(&mut index, table.fixed.as_slice())?;
    Ok(index)
}

impl Index {
    /// What the property of an element stands for.
    pub fn now(&self, prop: u32, element: u32) -> Meaning
        ensures { (table : PropTable) → IsIndex table self.now →
            meant result ≡ now_of table (is_of prop element) }
    {
        match self.values.get(&(prop, element)) {
            Some(entry) => Meaning::Known(entry.now),
            None => Meaning::Missing,
        }
    }

    /// What its old value stands for.
    pub fn old(&self, prop: u32, element: u32) -> Meaning
        ensures { (table : PropTable) → IsIndex table self.now →
            meant result ≡ old_of table (is_of prop element) }
    {
        match self.values.get(&(prop, element)) {
            Some(entry) => Meaning::Known(entry.old),
            None => Meaning::Missing,
        }
    }

    /// What the import of a type by a unit stands for.
    pub fn slot(&self, unit: u32, of: u32) -> Meaning
        ensures { (table : PropTable) → IsIndex table self.now →
            meant result ≡ now_of table (is_slot unit of) }
    {
        match self.slots.get(&(unit, of)) {
            Some(entry) => Meaning::Known(entry.now),
            None => Meaning::Missing,
        }
    }
}
