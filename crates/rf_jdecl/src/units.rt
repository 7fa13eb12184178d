ghost use Rattle.std.specs.Prelude.{◌≡◌, ◌≤◌, ◌<◌, ◌+◌, drop, length, IfOk};
ghost use Rattle.rf_jtree.specs.DeclShown.{unit_shown};
ghost use Rattle.rf_jtree.specs.DeclTrees.{unit_depth};
ghost use Rattle.rf_jtree.specs.declared.operator_names.TheConstants.{SEMICOLON};
ghost use Rattle.rf_jexpr.specs.Gives.{GivesTree, IsTaken};
ghost use Rattle.rf_jexpr.specs.Reads.{is_op, token, many};
ghost use Rattle.rf_jdecl.specs.DeclMade.{GivesUnit};
ghost use Rattle.rf_jdecl.specs.Files.{IsFile};
ghost use Rattle.rf_jdecl.specs.UnitReads.{front_unit, whole_unit};

use crate::decls::type_decl;
use crate::imports::{imports_at, some_package};
use rf_jexpr::{Found, ParseErr, Taken, Want, attempt, take};
use rf_jtree::operator_names::SEMICOLON;
use rf_jtree::{Tok, Toks, Unit};
use rf_text::{List, Memory};
use std::alloc::Global;

/// Stray `;`s, as many as stand there (JLS 7.6).
#[tactic(auto, using(rf_jexpr::proofs::TurnLemmas::turns))]
fn semis(alloc: Global, t: &[Tok], at: usize) -> Result<Taken<List<Tok>>, Memory>
    requires { at ≤ length t.now }
    ensures { IfOk result (IsTaken (λ list. list) t.now at
        (many (token (is_op SEMICOLON)) (drop at t.now))) }
{
    let mut list = List::new(alloc);
    let mut end = at;
    'items: while let Some(next) = attempt(take(alloc, t, end, Want::Op(SEMICOLON)))? {
        list.push(next.item)?;
        end = next.end;
    }
    Ok(Taken { item: list, end })
}

/// A file, as far as it goes (JLS 7.3).
#[tactic(auto, unfolding(crate::specs::UnitReads::front_unit, rf_jexpr::specs::Reads::and_then))]
fn front_unit(alloc: Global, t: &[Tok], at: usize, room: u32) -> Result<Found<Unit>, ParseErr>
    requires { at ≤ length t.now }
    ensures { GivesTree unit_shown unit_depth room t.now at result
        (front_unit room (drop at t.now)) }
{
    let clause = some_package(alloc, t, at)?;
    let imports = imports_at(alloc, t, clause.end)?;
    let decl = type_decl(alloc, t, imports.end, room)?;
    let semis = semis(alloc, t, decl.end)?;
    let tree = Unit {
        package: clause.item,
        imports: imports.item,
        decl: decl.tree,
        semis: semis.item,
    };
    Ok(Found {
        tree,
        end: semis.end,
        depth: decl.depth,
    })
}

/// A file that has all the tokens, with no expression or statement in it deeper than the room.
#[tactic(auto, using(crate::proofs::CodeLemmas::lefts), unfolding(crate::specs::UnitReads::whole_unit, rf_jexpr::specs::Reads::and_then))]
fn whole_unit(alloc: Global, t: &[Tok], room: u32) -> Result<Unit, ParseErr>
    ensures { GivesUnit result (whole_unit room t.now) }
{
    let found = front_unit(alloc, t, 0, room)?;
    if found.end < t.len() {
        return Err(ParseErr::NoTree);
    }
    Ok(found.tree)
}

/// The file that these tokens are, with no expression or statement in it deeper than 200 (JLS 7.3). Where there is none,
/// `NoTree` comes.
pub fn unit(alloc: Global, toks: &Toks) -> Result<Unit, ParseErr>
    ensures { IsFile toks.now.list result }
{
    whole_unit(alloc, toks.list.as_slice(), 200)
}
