ghost use Rattle.std.specs.Prelude.{drop};
ghost use Rattle.rf_jtree.specs.DeclShown.{member_shown};
ghost use Rattle.rf_jtree.specs.DeclTrees.{member_depth};
ghost use Rattle.rf_jtree.specs.NameShown.{mods_shown, type_shown};
ghost use Rattle.rf_jexpr.specs.Gives.{GivesTree};
ghost use Rattle.rf_jdecl.specs.MemberReads.{field};

use rf_jexpr::{Found, ParseErr, Want, take};
use rf_jstmt::vars;
use rf_jtree::operator_names::SEMICOLON;
use rf_jtree::{Member, Mod, Tok, TypeUse};
use rf_text::List;
use std::alloc::Global;

/// Fields, behind their modifiers and their type (JLS 8.3, 9.3).
#[tactic(auto, unfolding(crate::specs::MemberReads::field, rf_jexpr::specs::Reads::and_then))]
pub(crate) fn field(
    alloc: Global,
    t: &[Tok],
    at: usize,
    room: u32,
    mods: List<Mod>,
    used_type: TypeUse,
) -> Result<Found<Member>, ParseErr>
    ensures { GivesTree member_shown member_depth room t.now at result
        (field room (mods_shown mods) (type_shown used_type) (drop at t.now)) }
{
    let list = vars(alloc, t, at, room)?;
    let semi = take(alloc, t, list.end, Want::Op(SEMICOLON))?;
    let tree = Member::Field {
        mods,
        used_type,
        vars: list.tree,
        semi: semi.item,
    };
    Ok(Found {
        tree,
        end: semi.end,
        depth: list.depth,
    })
}
