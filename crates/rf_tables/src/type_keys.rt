ghost use Rattle.std.specs.Prelude.{◌≡◌, ◌+◌, ◌++◌, ◌↔◌, ◌<◌, Some, Contains, IfOk, IsPermutation, OnOk, length, map, position, slice_get};
ghost use Rattle.rf_jmodel.specs.declared.ids.TypeId.{TypeId};
ghost use Rattle.rf_jmodel.specs.declared.ids.UnitId.{UnitId};
ghost use Rattle.rf_jmodel.specs.Elements.{is_type};
ghost use Rattle.rf_jmodel.specs.Subtypes.{IsTypeId};
ghost use Rattle.rf_jmodel.specs.Whole.{IsWhole};
ghost use Rattle.rf_tables.specs.TypeKeys.{AreInOrder, entry_at, file_of, keys_with, type_entry, type_keys};

use rf_jmodel::{PlacedUnit, Project, UnitId};
use rf_junits::unit_account;
use rf_jview::Mark;
use rf_text::{List, Memory};
use std::alloc::Global;

/// A file's type: the entry of its token, and the file. The first two give its place in element order.
#[derive(Clone, Copy, Debug, PartialEq, Eq, PartialOrd, Ord)]
struct TypeKey {
    file: u32,
    token: u32,
    unit: u32,
}

fn declares_type(mark: Mark) -> bool
    ensures { result ≡ is_type mark }
{
    matches!(mark, Mark::Type)
}

fn type_place(marks: &[Mark]) -> Option<usize>
    ensures { result ≡ position is_type marks.now }
{
    marks.iter().position(|mark| declares_type(*mark))
}

fn entry(unit: &PlacedUnit, marks: &[Mark]) -> Option<(u32, u32)>
    ensures { result ≡ entry_at unit.now.from (position is_type marks.now) }
{
    let at = type_place(marks)?;
    *unit.from.get(at)?
}

fn entry_of_type(alloc: Global, unit: &PlacedUnit) -> Result<Option<(u32, u32)>, Memory>
    ensures { IfOk result (λ entry. entry ≡ type_entry unit.now) }
{
    let marks = unit_account(alloc, &unit.tree)?;
    Ok(entry(unit, marks.as_slice()))
}

fn put_key(keys: &mut List<TypeKey>, unit: u32, entry: Option<(u32, u32)>) -> Result<(), Memory>
    ensures { OnOk result (keys.new ≡ keys.old ++ keys_with unit entry) }
{
    match entry {
        None => Ok(()),
        Some((file, token)) => keys.push(TypeKey { file, token, unit }),
    }
}

fn one_more(number: u32) -> Result<u32, Memory>
    ensures { IfOk result (λ more. more ≡ number + 1) }
{
    number.checked_add(1).ok_or(Memory)
}

#[tactic(auto, using(std::proofs::lemmas::Grind::common_steps))]
fn all_keys(alloc: Global, units: &[PlacedUnit]) -> Result<List<TypeKey>, Memory>
    ensures { IfOk result (λ keys. keys ≡ type_keys 0 units.now) }
{
    let mut keys = List::new(alloc);
    let mut at: u32 = 0;
    for unit in units {
        let entry = entry_of_type(alloc, unit)?;
        put_key(&mut keys, at, entry)?;
        at = one_more(at)?;
    }
    Ok(keys)
}

fn in_element_order(mut keys: List<TypeKey>) -> List<TypeKey>
    ensures permutation { IsPermutation keys result }
    ensures order { AreInOrder result }
{
    keys.sort_unstable();
    keys
}

fn files_of(alloc: Global, keys: &List<TypeKey>) -> Result<List<UnitId>, Memory>
    ensures { IfOk result (λ files. files ≡ map file_of keys.now) }
{
    let mut files = List::new(alloc);
    for key in keys.as_slice() {
        files.push(UnitId(key.unit))?;
    }
    Ok(files)
}

/// The files of a project in the element order of their types: the id of a file's type is the place of the file.
pub fn type_order(alloc: Global, project: &Project) -> Result<List<UnitId>, Memory>
    requires { IsWhole project.now }
    ensures ids { IfOk result (λ files. (id : TypeId) (unit : UnitId)
        → slice_get files id.0 ≡ Some unit → IsTypeId project.now id unit.0) }
    ensures all { IfOk result (λ files. (unit : UnitId)
        → Contains files unit ↔ (unit.0 < length project.now.units)) }
{
    let found = all_keys(alloc, project.units.as_slice())?;
    let keys = in_element_order(found);
    let files = files_of(alloc, &keys)?;
    Ok(files)
}
