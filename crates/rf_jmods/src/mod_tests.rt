ghost use Rattle.std.specs.Prelude.{◌≡◌};
ghost use Rattle.std.specs.List.{list_all};
ghost use Rattle.rf_jtree.specs.NameShown.{mod_shown, mods_shown};
ghost use Rattle.rf_jmods.specs.ModReads.{is_str, is_mark_name, is_suppress_name};
ghost use Rattle.rf_jmods.specs.ModTests.{none_twice, one_access, mods_fit, is_variable_mod, variable_mods_fit};

use rf_jfit::{has_one_access_at_most, is_final_or_annotation, is_str, none_stands_twice};
use rf_jtree::{Mod, Tok};

// The conditions on modifiers, as tests of what was read.

/// Whether the token is a string.
pub(crate) fn is_string(tok: &Tok) -> bool
    ensures { result ≡ is_str tok.now }
{
    is_str(tok)
}

/// Whether the token is the name of an annotation that stands alone (JLS 9.6.3).
pub(crate) fn is_mark_name(tok: &Tok) -> bool
    ensures { result ≡ is_mark_name tok.now }
{
    rf_jfit::is_mark_name(tok)
}

/// Whether the token is the name of the annotation that has strings (JLS 9.6.3.5).
pub(crate) fn is_suppress_name(tok: &Tok) -> bool
    ensures { result ≡ is_suppress_name tok.now }
{
    rf_jfit::is_suppress_name(tok)
}

/// Whether no modifier stands twice.
fn none_twice(mods: &[Mod]) -> bool
    ensures { result ≡ none_twice (mods_shown mods.now) }
{
    none_stands_twice(mods)
}

/// Whether at most one access modifier stands.
fn one_access(mods: &[Mod]) -> bool
    ensures { result ≡ one_access (mods_shown mods.now) }
{
    has_one_access_at_most(mods)
}

/// Whether these modifiers may stand before one declaration, whatever it is (JLS 8.1.1, 8.3.1, 8.4.3, 9.7).
#[tactic(auto, unfolding(crate::specs::ModTests::mods_fit))]
pub fn mods_fit(mods: &[Mod]) -> bool
    ensures { result ≡ mods_fit (mods_shown mods.now) }
{
    none_twice(mods) && one_access(mods)
}

fn is_variable_mod(one: &Mod) -> bool
    ensures { result ≡ is_variable_mod (mod_shown one.now) }
{
    is_final_or_annotation(one)
}

fn each_is_variable_mod(mods: &[Mod]) -> bool
    ensures { result ≡ list_all (λ one. is_variable_mod (mod_shown one)) mods.now }
{
    mods.iter().all(|one| is_variable_mod(one))
}

fn are_variable_mods(mods: &[Mod]) -> bool
    ensures { result ≡ list_all is_variable_mod (mods_shown mods.now) }
{
    each_is_variable_mod(mods)
}

/// Whether these modifiers may stand before a local variable or a parameter (JLS 8.4.1, 14.4).
#[tactic(auto, unfolding(crate::specs::ModTests::variable_mods_fit))]
pub(crate) fn variable_mods_fit(mods: &[Mod]) -> bool
    ensures { result ≡ variable_mods_fit (mods_shown mods.now) }
{
    mods_fit(mods) && are_variable_mods(mods)
}
