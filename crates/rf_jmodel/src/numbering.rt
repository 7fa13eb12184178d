ghost use Rattle.std.specs.Prelude.{◌≡◌, ◌+◌, ◌^◌, ◌<◌, ◌≤◌, [], All, Bool, IfOk, OnOk, length};
ghost use Rattle.rf_jview.specs.declared.marks.Mark.{Mark};
ghost use Rattle.rf_jmodel.specs.declared.ids.TypeId.{TypeId};
ghost use Rattle.rf_jmodel.specs.ElementLists.{places_in};
ghost use Rattle.rf_jmodel.specs.Elements.{AreKeys, HasElement};
ghost use Rattle.rf_jmodel.specs.Numbering.{entries_from, numbered_unit, numbered_units, numbered};
ghost use Rattle.rf_jmodel.specs.ProjectNames.{with_text, with_texts, identifier_text, identifier_texts, package_text, unit_texts, texts_of};
ghost use Rattle.rf_jmodel.specs.Subtypes.{IsTypeId};
ghost use Rattle.rf_jmodel.specs.Whole.{HasBasicTypes, IsParsed, IsWhole, token_count};

use crate::{PlacedUnit, Project};
use rf_jtree::{Tok, TokKind, Unit};
use rf_jview::laws::as_many_marks_as_tokens;
use rf_text::{Bytes, List, Memory, Names};
use std::alloc::Global;

fn narrow(number: usize) -> Result<u32, Memory>
    ensures { IfOk result (λ same. same ≡ number) }
{
    match u32::try_from(number) {
        Ok(same) => Ok(same),
        Err(_) => Err(Memory),
    }
}

fn one_more(number: u32) -> Result<u32, Memory>
    ensures { IfOk result (λ more. more ≡ number + 1) }
{
    number.checked_add(1).ok_or(Memory)
}

/// The entries of a file's tokens, each the token itself.
#[tactic(auto, using(crate::proofs::NumberLemmas::numbering, std::proofs::lemmas::Grind::common_steps))]
fn entries(alloc: Global, unit: u32, toks: &[Tok]) -> Result<List<Option<(u32, u32)>>, Memory>
    ensures { IfOk result (λ from. from ≡ entries_from unit 0 toks.now) }
{
    let mut from = List::new(alloc);
    let mut at: u32 = 0;
    for _tok in toks {
        from.push(Some((unit, at)))?;
        at = one_more(at)?;
    }
    Ok(from)
}

fn number_unit(alloc: Global, unit: PlacedUnit, at: usize) -> Result<PlacedUnit, Memory>
    ensures { IfOk result (λ numbered. numbered ≡ numbered_unit at unit) }
{
    let PlacedUnit {
        path,
        toks,
        from: _from,
        tree,
    } = unit;
    let from = entries(alloc, narrow(at)?, toks.list.as_slice())?;
    Ok(PlacedUnit {
        path,
        toks,
        from,
        tree,
    })
}

/// The files, each with its entries. They are taken from the last one on.
#[tactic(auto, using(crate::proofs::NumberLemmas::numbering, std::proofs::lemmas::Grind::common_steps))]
fn number_units(alloc: Global, units: List<PlacedUnit>) -> Result<List<PlacedUnit>, Memory>
    ensures { IfOk result (λ numbered. numbered ≡ numbered_units 0 units) }
{
    let mut left = units;
    let mut done = List::new(alloc);
    while let Some(unit) = left.pop() {
        let at = left.len();
        done.push(number_unit(alloc, unit, at)?)?;
    }
    done.reverse();
    Ok(done)
}

/// Puts a text at the end of the names if it isn't among them.
#[tactic(auto, using(crate::proofs::NameLemmas::naming, std::proofs::lemmas::Grind::common_steps))]
fn put(alloc: Global, names: &mut Names, text: &[u8]) -> Result<(), Memory>
    ensures { OnOk result (names.new ≡ with_text names.old text.now) }
{
    if names.len() >= 0xffff_ffff {
        return Err(Memory);
    }
    names.intern(alloc, text)?;
    Ok(())
}

#[tactic(auto, using(crate::proofs::NameLemmas::naming, std::proofs::lemmas::Grind::common_steps))]
fn put_identifier(alloc: Global, names: &mut Names, tok: &Tok) -> Result<(), Memory>
    ensures { OnOk result
        (names.new ≡ with_texts names.old (identifier_text tok.now.kind tok.now.text)) }
{
    match tok.kind {
        TokKind::Ident => put(alloc, names, tok.text.as_slice()),
        _ => Ok(()),
    }
}

#[tactic(auto, using(crate::proofs::NameLemmas::naming, std::proofs::lemmas::Grind::common_steps))]
fn put_identifiers(alloc: Global, names: &mut Names, toks: &[Tok]) -> Result<(), Memory>
    ensures { OnOk result (names.new ≡ with_texts names.old (identifier_texts toks.now)) }
{
    for tok in toks {
        put_identifier(alloc, names, tok)?;
    }
    Ok(())
}

/// The package of a file, the empty text for the unnamed one.
fn package_of(alloc: Global, tree: &Unit) -> Result<Bytes, Memory>
    ensures { IfOk result (λ text. text ≡ package_text tree.now) }
{
    match &tree.package {
        None => Ok(Bytes::new(alloc)),
        Some(clause) => clause.1.text(alloc),
    }
}

#[tactic(auto, using(crate::proofs::NameLemmas::naming, std::proofs::lemmas::Grind::common_steps))]
fn put_unit(alloc: Global, names: &mut Names, unit: &PlacedUnit) -> Result<(), Memory>
    ensures { OnOk result (names.new ≡ with_texts names.old (unit_texts unit.now)) }
{
    let text = package_of(alloc, &unit.tree)?;
    put(alloc, names, text.as_slice())?;
    put_identifiers(alloc, names, unit.toks.list.as_slice())
}

/// The names of a project: the package of each file and the identifiers in it, each text once.
#[tactic(auto, using(crate::proofs::NameLemmas::naming, std::proofs::lemmas::Grind::common_steps))]
fn names_of(alloc: Global, units: &[PlacedUnit]) -> Result<Names, Memory>
    ensures { IfOk result (λ names. names ≡ with_texts [] (texts_of units.now)) }
{
    let mut names = Names::new(alloc);
    for unit in units {
        put_unit(alloc, &mut names, unit)?;
    }
    Ok(names)
}

/// The project of these files, of which so many are its own and the next so many are the library's. Each token gets itself
/// as its entry, and the project has the names that stand in it, in the order in which they first come. The type with an id is
/// that of the file with this number.
pub fn number(alloc: Global, units: List<PlacedUnit>, own: u32, lib: u32) -> Result<Project, Memory>
    requires counted { own + lib ≤ length units }
    requires parsed { All IsParsed units }
    requires few { token_count units < 2 ^ 30 }
    ensures exact { IfOk result (λ project. project ≡ numbered units own lib) }
    ensures elements { IfOk result (λ project. (of : Mark → Bool)
        → AreKeys (HasElement project of) (places_in of 0 units)) }
    ensures types { IfOk result (λ project. (id : TypeId) → id.0 < length units
        → IsTypeId project id id.0) }
    ensures whole { IfOk result (λ project. HasBasicTypes project → IsWhole project) }
{
    as_many_marks_as_tokens();
    let names = names_of(alloc, units.as_slice())?;
    let units = number_units(alloc, units)?;
    Ok(Project {
        units,
        names,
        own,
        lib,
    })
}
