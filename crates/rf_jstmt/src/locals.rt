ghost use Rattle.std.specs.Prelude.{◌≡◌, ◌≤◌, drop, length};
ghost use Rattle.rf_jtree.specs.NameShown.{mods_shown, type_shown};
ghost use Rattle.rf_jtree.specs.StmtShown.{local_shown};
ghost use Rattle.rf_jtree.specs.StmtTrees.{local_depth};
ghost use Rattle.rf_jexpr.specs.Descent.{parsers};
ghost use Rattle.rf_jexpr.specs.Gives.{GivesTree};
ghost use Rattle.rf_jexpr.specs.NameReads.{type_use};
ghost use Rattle.rf_jexpr.specs.Reads.{begins, is_ident};
ghost use Rattle.rf_jstmt.specs.VarReads.{local_vars, local, begins_label, begins_local, ends_before, marks_local};

use crate::ends::{tok_end, type_end};
use crate::variables::vars;
use rf_jexpr::{Found, ParseErr, Want, is_at, type_use};
use rf_jmods::variable_mods;
use rf_jtree::keyword_names::FINAL;
use rf_jtree::operator_names::{AT, COLON};
use rf_jtree::{Local, Mod, Tok, TypeUse};
use rf_text::List;
use std::alloc::Global;

/// The variables of a local declaration, behind its modifiers and its type (JLS 14.4).
#[tactic(auto, unfolding(crate::specs::VarReads::local_vars, rf_jexpr::specs::Reads::and_then))]
pub(crate) fn local_vars(
    alloc: Global,
    t: &[Tok],
    at: usize,
    room: u32,
    mods: List<Mod>,
    used_type: TypeUse,
) -> Result<Found<Local>, ParseErr>
    ensures { GivesTree local_shown local_depth room t.now at result
        (local_vars (parsers room) (mods_shown mods) (type_shown used_type) (drop at t.now)) }
{
    let vars = vars(alloc, t, at, room)?;
    Ok(Found {
        tree: Local {
            mods,
            used_type,
            vars: vars.tree,
        },
        end: vars.end,
        depth: vars.depth,
    })
}

/// A local declaration, without its `;` (JLS 14.4).
#[tactic(auto, unfolding(crate::specs::VarReads::local, rf_jexpr::specs::Reads::and_then))]
pub(crate) fn local(
    alloc: Global,
    t: &[Tok],
    at: usize,
    room: u32,
) -> Result<Found<Local>, ParseErr>
    requires { at ≤ length t.now }
    ensures { GivesTree local_shown local_depth room t.now at result
        (local (parsers room) (drop at t.now)) }
{
    let mods = variable_mods(alloc, t, at)?;
    let used_type = type_use(alloc, t, mods.end)?;
    local_vars(alloc, t, used_type.end, room, mods.item, used_type.item)
}

/// Whether an identifier and `:` stand at this place (JLS 14.7, 14.14.2).
pub(crate) fn begins_label_at(t: &[Tok], at: usize) -> bool
    ensures { result ≡ begins_label (drop at t.now) }
{
    match tok_end(t, at, Want::Ident) {
        Some(end) => is_at(t, end, Want::Op(COLON)),
        None => false,
    }
}

/// Whether an identifier stands behind the use of a type.
fn names_variable(t: &[Tok], at: usize) -> bool
    ensures { result ≡ ends_before is_ident (type_use (drop at t.now)) }
{
    match type_end(t, at) {
        Some(end) => is_at(t, end, Want::Ident),
        None => false,
    }
}

/// Whether the token at this place begins nothing but a declaration.
#[tactic(auto, using(crate::proofs::FrontLemmas::marks))]
fn marks_local(t: &[Tok], at: usize) -> bool
    ensures { result ≡ begins marks_local (drop at t.now) }
{
    is_at(t, at, Want::Key(FINAL)) || (is_at(t, at, Want::Op(AT)) || is_at(t, at, Want::Primitive))
}

/// Whether a local declaration begins at this place: with `final`, an annotation or a primitive type, or with a type and a
/// name behind it (JLS 14.4).
#[tactic(auto, unfolding(crate::specs::VarReads::begins_local))]
pub(crate) fn begins_local(t: &[Tok], at: usize) -> bool
    ensures { result ≡ begins_local (drop at t.now) }
{
    marks_local(t, at) || names_variable(t, at)
}
