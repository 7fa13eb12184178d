ghost use Rattle.std.specs.Prelude.{◌≡◌, ◌<◌, ℕ, List, length};
ghost use Rattle.std.specs.HashMap.{get};
ghost use Rattle.rf_jmodel.specs.declared.projects.Project.{Project};
ghost use Rattle.rf_jmodel.specs.StandsFor.{IsText, StandsFor, name_eq, names_eq};
ghost use Rattle.rf_jmodel.specs.TypeNames.{TypeAt};
ghost use Rattle.rf_jmodel.specs.Whole.{IsWhole};
ghost use Rattle.rf_symtab.specs.declared.answers.Answer.TheVariants as answer;
ghost use Rattle.rf_symtab.specs.Answers.{HasNamesOnce, IsAnswer};
ghost use Rattle.rf_symtab.specs.Found.{accessible_id, own_id, demanded_from, answer_in};

use crate::Answer;
use rf_jmodel::{Tables, TypeId, TypeRow, UnitId, UnitRow};
use rf_text::NameId;

fn row_of(tables: &Tables, in_package: NameId, name: NameId) -> Option<TypeRow>
    ensures { result ≡ get names_eq tables.now.types (in_package, name) }
{
    tables.types.get(&(in_package, name)).copied()
}

/// The type of a package with this name, if it is accessible from package `from` (JLS 6.6.1).
fn accessible(tables: &Tables, from: NameId, in_package: NameId, name: NameId) -> Option<TypeId>
    ensures { result
        ≡ accessible_id from in_package (get names_eq tables.now.types (in_package, name)) }
{
    let row = row_of(tables, in_package, name)?;
    if row.is_public || in_package == from {
        Some(row.id)
    } else {
        None
    }
}

fn own(row: &UnitRow, name: NameId) -> Option<TypeId>
    ensures { result ≡ own_id row.now name }
{
    if row.own.0 == name {
        Some(row.own.1)
    } else {
        None
    }
}

fn single(row: &UnitRow, name: NameId) -> Option<TypeId>
    ensures { result ≡ get name_eq row.now.single name }
{
    row.single.get(&name).copied()
}

fn on_demand(tables: &Tables, row: &UnitRow, name: NameId) -> Answer
    ensures { result
        ≡ demanded_from tables.now row.now.package name answer.None row.now.demand }
{
    let mut found = Answer::None;
    for in_package in row.demand.as_slice() {
        found = found.with(accessible(tables, row.package, *in_package, name));
    }
    found
}

fn type_in(tables: &Tables, row: &UnitRow, name: NameId) -> Answer
    ensures { result ≡ answer_in tables.now row.now name }
{
    if let Some(id) = own(row, name) {
        return Answer::One(id);
    }
    if let Some(id) = single(row, name) {
        return Answer::One(id);
    }
    if let Some(id) = accessible(tables, row.package, row.package, name) {
        return Answer::One(id);
    }
    on_demand(tables, row, name)
}

/// What a simple name of a type means in a file (JLS 6.4.1, 6.5.5.1), in every project that the tables stand for. That its
/// names are distinct `names_are_distinct` tells. It takes no memory.
pub fn type_at(tables: &Tables, unit: UnitId, name: NameId) -> Answer
    ensures { (project : Project) (text : List ℕ) → IsWhole project → HasNamesOnce project
        → StandsFor tables.now project → unit.0 < length project.units → IsText project name text
        → IsAnswer project (TypeAt project unit.0 text) result }
{
    match tables.units.get(unit.0 as usize) {
        Some(row) => type_in(tables, row, name),
        None => Answer::None,
    }
}
