ghost use Rattle.std.specs.Prelude.{◌≤◌, ◌<◌, drop, length, option_map, IfOk};
ghost use Rattle.rf_jtree.specs.DeclShown.{import_shown, imports_shown, package_shown};
ghost use Rattle.rf_jexpr.specs.Gives.{Gives, IsTaken};
ghost use Rattle.rf_jexpr.specs.Reads.{many, optional};
ghost use Rattle.rf_jdecl.specs.UnitReads.{on_demand, import_decl, package_clause};

use crate::decl_tests::names_package;
use rf_jexpr::{ParseErr, Taken, Want, attempt, name, take};
use rf_jtree::keyword_names::{IMPORT, PACKAGE};
use rf_jtree::operator_names::{DOT, SEMICOLON, TIMES};
use rf_jtree::{Import, Name, Tok};
use rf_text::{List, Memory};
use std::alloc::Global;

/// `.` and `*` (JLS 7.5.2).
#[tactic(auto, unfolding(crate::specs::UnitReads::on_demand, rf_jexpr::specs::Reads::and_then))]
fn on_demand(alloc: Global, t: &[Tok], at: usize) -> Result<Taken<(Tok, Tok)>, ParseErr>
    ensures { Gives (λ star. star) t.now at result (on_demand (drop at t.now)) }
{
    let dot = take(alloc, t, at, Want::Op(DOT))?;
    let times = take(alloc, t, dot.end, Want::Op(TIMES))?;
    Ok(Taken {
        item: (dot.item, times.item),
        end: times.end,
    })
}

/// `.` and `*`, if they stand there.
#[tactic(auto, unfolding(rf_jexpr::specs::Reads::optional, rf_jexpr::specs::Reads::and_then, rf_jexpr::specs::Reads::or_else))]
fn some_star(alloc: Global, t: &[Tok], at: usize) -> Result<Taken<Option<(Tok, Tok)>>, Memory>
    requires { at ≤ length t.now }
    ensures { IfOk result (IsTaken (λ star. star) t.now at (optional on_demand (drop at t.now))) }
{
    match attempt(on_demand(alloc, t, at))? {
        Some(star) => Ok(star.there()),
        None => Ok(Taken::left_out(at)),
    }
}

/// An import, of one type or on demand (JLS 7.5).
#[tactic(auto, unfolding(crate::specs::UnitReads::import_decl, rf_jexpr::specs::Reads::and_then, rf_jexpr::specs::Reads::when))]
fn import_decl(alloc: Global, t: &[Tok], at: usize) -> Result<Taken<Import>, ParseErr>
    ensures gives { Gives import_shown t.now at result (import_decl (drop at t.now)) }
    ensures forth { IfOk result (λ x. at < x.end) }
{
    let word = take(alloc, t, at, Want::Key(IMPORT))?;
    let found = name(alloc, t, word.end)?;
    let star = some_star(alloc, t, found.end)?;
    if !names_package(&found.item, &star.item) {
        return Err(ParseErr::NoTree);
    }
    let semi = take(alloc, t, star.end, Want::Op(SEMICOLON))?;
    let item = Import {
        word: word.item,
        name: found.item,
        star: star.item,
        semi: semi.item,
    };
    Ok(Taken {
        item,
        end: semi.end,
    })
}

/// Imports, as many as stand there.
#[tactic(auto, using(crate::proofs::CodeLemmas::shown_turns))]
pub(crate) fn imports_at(alloc: Global, t: &[Tok], at: usize) -> Result<Taken<List<Import>>, Memory>
    requires { at ≤ length t.now }
    ensures { IfOk result (IsTaken imports_shown t.now at (many import_decl (drop at t.now))) }
{
    let mut list = List::new(alloc);
    let mut end = at;
    'items: while let Some(next) = attempt(import_decl(alloc, t, end))? {
        list.push(next.item)?;
        end = next.end;
    }
    Ok(Taken { item: list, end })
}

/// The package clause (JLS 7.4).
#[tactic(auto, unfolding(crate::specs::UnitReads::package_clause, rf_jexpr::specs::Reads::and_then))]
fn package_clause(alloc: Global, t: &[Tok], at: usize) -> Result<Taken<(Tok, Name, Tok)>, ParseErr>
    ensures { Gives package_shown t.now at result (package_clause (drop at t.now)) }
{
    let word = take(alloc, t, at, Want::Key(PACKAGE))?;
    let found = name(alloc, t, word.end)?;
    let semi = take(alloc, t, found.end, Want::Op(SEMICOLON))?;
    Ok(Taken {
        item: (word.item, found.item, semi.item),
        end: semi.end,
    })
}

/// The package clause, if it stands there.
#[tactic(auto, unfolding(rf_jexpr::specs::Reads::optional, rf_jexpr::specs::Reads::and_then, rf_jexpr::specs::Reads::or_else))]
pub(crate) fn some_package(
    alloc: Global,
    t: &[Tok],
    at: usize,
) -> Result<Taken<Option<(Tok, Name, Tok)>>, Memory>
    requires { at ≤ length t.now }
    ensures { IfOk result (IsTaken (option_map package_shown) t.now at
        (optional package_clause (drop at t.now))) }
{
    match attempt(package_clause(alloc, t, at))? {
        Some(clause) => Ok(clause.there()),
        None => Ok(Taken::left_out(at)),
    }
}
