#![tactic(auto, using(rf_jmodel::proofs::NameLemmas::naming, std::proofs::lemmas::Grind::common_steps))]

ghost use Rattle.std.specs.Prelude.{◌≡◌, ◌↔◌, ◌<◌, ◌^◌, [], ℕ, List as Items, Some, true, AllPairs, Contains, IfOk, IsPermutation, IsSorted, OnOk, length, slice_get};
ghost use Rattle.std.specs.Cmp.Lexicographic.{slice_cmp};
ghost use Rattle.std.specs.Ordering.{nat_cmp};
ghost use Rattle.rf_jtree.specs.NameShown.{name_shown};
ghost use Rattle.rf_jtree.specs.DeclShown.{unit_shown};
ghost use Rattle.rf_jmodel.specs.ProjectNames.{with_text, with_texts};
ghost use Rattle.rf_jmodel.specs.StandsFor.{IsPackageText, is_text_before};
ghost use Rattle.rf_tables.specs.PackageTexts.{front_texts, package_fronts, all_fronts};

use rf_jmodel::{PlacedUnit, Project};
use rf_jtree::{Name, Unit};
use rf_text::{Bytes, List, Memory, NameId, Names, names_are_distinct};
use std::alloc::Global;

/// Puts a text at the end of the names if it isn't among them.
fn put(alloc: Global, names: &mut Names, text: &[u8]) -> Result<(), Memory>
    ensures { OnOk result (names.new ≡ with_text names.old text.now) }
{
    if names.len() >= 0xffff_ffff {
        return Err(Memory);
    }
    names.intern(alloc, text)?;
    Ok(())
}

/// Puts the package that a name is, and each one that it is a part of.
fn put_fronts(alloc: Global, names: &mut Names, name: &Name) -> Result<(), Memory>
    ensures { OnOk result (names.new ≡ with_texts names.old (front_texts (name_shown name.now))) }
{
    let mut text = name.ids.first.text.copy(alloc)?;
    put(alloc, names, text.as_slice())?;
    for item in name.ids.rest.as_slice() {
        text.push(b'.')?;
        text.extend(item.1.text.as_slice())?;
        put(alloc, names, text.as_slice())?;
    }
    Ok(())
}

fn put_package(alloc: Global, names: &mut Names, tree: &Unit) -> Result<(), Memory>
    ensures { OnOk result (names.new ≡ with_texts names.old (package_fronts (unit_shown tree.now))) }
{
    match &tree.package {
        None => Ok(()),
        Some(clause) => put_fronts(alloc, names, &clause.1),
    }
}

fn put_packages(alloc: Global, units: &[PlacedUnit]) -> Result<Names, Memory>
    ensures { IfOk result (λ names. names ≡ with_texts [] (all_fronts units.now)) }
{
    let mut names = Names::new(alloc);
    for unit in units {
        put_package(alloc, &mut names, &unit.tree)?;
    }
    Ok(names)
}

fn text_at(alloc: Global, names: &Names, at: usize) -> Result<Bytes, Memory>
    requires within { at < length names.now }
    requires small { at < 2 ^ 32 }
    ensures { IfOk result (λ text. slice_get names.now at ≡ Some text) }
{
    Bytes::from_slice(alloc, names.text(NameId(at as u32)))
}

#[tactic(auto, using(crate::proofs::TakeLemmas::taking, std::proofs::lemmas::Grind::common_steps))]
fn listed(alloc: Global, names: &Names) -> Result<List<Bytes>, Memory>
    ensures { IfOk result (λ texts. texts ≡ names.now) }
{
    let mut texts = List::new(alloc);
    for at in 0..names.len() {
        let text = text_at(alloc, names, at)?;
        texts.push(text)?;
    }
    Ok(texts)
}

/// The same texts in byte order.
fn in_byte_order(mut texts: List<Bytes>) -> List<Bytes>
    ensures permutation { IsPermutation texts result }
    ensures order { IsSorted (slice_cmp nat_cmp) result }
{
    texts.sort_unstable();
    texts
}

/// The packages of a project, each once and in byte order (JLS 7.1).
pub fn packages(alloc: Global, project: &Project) -> Result<List<Bytes>, Memory>
    ensures exact { IfOk result (λ texts. (text : Items ℕ)
        → Contains texts text ↔ IsPackageText project.now text) }
    ensures rise { IfOk result (λ texts.
        AllPairs (λ one other. is_text_before one other ≡ true) texts) }
{
    let names = put_packages(alloc, project.units.as_slice())?;
    names_are_distinct(&names);
    let texts = listed(alloc, &names)?;
    Ok(in_byte_order(texts))
}
