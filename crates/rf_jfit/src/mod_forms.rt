ghost use Rattle.std.specs.Prelude.{◌≡◌, ◌↔◌, IsTrue, false, not};
ghost use Rattle.std.specs.List.{list_all};
ghost use Rattle.rf_jtree.specs.NameFits.{EachFits, IsMarkName, IsSuppressName, key_number, is_same_mod, NoneStandsTwice, is_access, HasOneAccessAtMost};
ghost use Rattle.rf_jtree.specs.NameShown.{mod_shown, mods_shown};
ghost use Rattle.rf_jtree.specs.StmtFits.{IsFinalOrAnnotation};

use crate::kinds::{is_ident, is_key, is_key_of};
use rf_jtree::keyword_names::{ACCESSES, FINAL};
use rf_jtree::{Mod, Tok, TokKind};

fn has_text(tok: &Tok, text: &[u8]) -> bool
    ensures { IsTrue result ↔ (tok.now.text ≡ text.now) }
{
    tok.text.as_slice() == text
}

/// Whether the token is the name of an annotation that stands alone (JLS 9.6.3).
pub fn is_mark_name(id: &Tok) -> bool
    ensures { IsTrue result ↔ IsMarkName id.now }
{
    is_ident(id) && (has_text(id, b"Override") || has_text(id, b"Deprecated"))
}

/// Whether the token is the name of the annotation that has strings (JLS 9.6.3.5).
pub fn is_suppress_name(id: &Tok) -> bool
    ensures { IsTrue result ↔ IsSuppressName id.now }
{
    is_ident(id) && has_text(id, b"SuppressWarnings")
}

fn key_number(tok: &Tok) -> u8
    ensures { result ≡ key_number tok.now.kind }
{
    match tok.kind {
        TokKind::Key(word) => word.0,
        _ => 50,
    }
}

fn is_same_mod(one: &Mod, other: &Mod) -> bool
    ensures { result ≡ is_same_mod (mod_shown one.now) (mod_shown other.now) }
{
    match (one, other) {
        (Mod::Word(one), Mod::Word(other)) => key_number(one) == key_number(other),
        (Mod::Mark { id, .. }, Mod::Mark { id: other, .. }) => id.text.as_slice()
            == other.text.as_slice(),
        (Mod::Suppress { id, .. }, Mod::Suppress { id: other, .. }) => id.text.as_slice()
            == other.text.as_slice(),
        (Mod::Word(_), Mod::Mark { .. } | Mod::Suppress { .. })
        | (Mod::Mark { .. }, Mod::Word(_) | Mod::Suppress { .. })
        | (Mod::Suppress { .. }, Mod::Word(_) | Mod::Mark { .. }) => false,
    }
}

fn differs_from_each(one: &Mod, others: &[Mod]) -> bool
    ensures { result ≡ list_all (λ other. not (is_same_mod (mod_shown one.now) (mod_shown other)))
        others.now }
{
    others.iter().all(|other| !is_same_mod(one, other))
}

/// Whether none of the others is the same modifier.
fn is_new_to(one: &Mod, others: &[Mod]) -> bool
    ensures { IsTrue result ↔ EachFits (λ other. is_same_mod (mod_shown one.now) other ≡ false)
        (mods_shown others.now) }
{
    differs_from_each(one, others)
}

/// Whether no modifier stands twice (JLS 8.1.1, 9.7). There are 14 sorts of them, so a pair is found among the first 15
/// modifiers at the latest.
pub fn none_stands_twice(mods: &[Mod]) -> bool
    ensures { IsTrue result ↔ NoneStandsTwice (mods_shown mods.now) }
{
    match mods {
        [] => true,
        [one, more @ ..] => is_new_to(one, more) && none_stands_twice(more),
    }
}

fn is_access(one: &Mod) -> bool
    ensures { result ≡ is_access (mod_shown one.now) }
{
    match one {
        Mod::Word(tok) => is_key_of(tok, &ACCESSES),
        Mod::Mark { .. } | Mod::Suppress { .. } => false,
    }
}

fn each_is_no_access(mods: &[Mod]) -> bool
    ensures { result ≡ list_all (λ other. not (is_access (mod_shown other))) mods.now }
{
    mods.iter().all(|other| !is_access(other))
}

fn has_no_access(mods: &[Mod]) -> bool
    ensures { IsTrue result ↔ EachFits (λ one. is_access one ≡ false) (mods_shown mods.now) }
{
    each_is_no_access(mods)
}

/// Whether at most one of `public`, `protected` and `private` stands (JLS 8.1.1, 8.3.1, 8.4.3).
pub fn has_one_access_at_most(mods: &[Mod]) -> bool
    ensures { IsTrue result ↔ HasOneAccessAtMost (mods_shown mods.now) }
{
    match mods {
        [] => true,
        [one, more @ ..] => (!is_access(one) || has_no_access(more))
            && has_one_access_at_most(more),
    }
}

/// Whether a local variable or a parameter may have the modifier: `final` or an annotation (JLS 8.4.1, 14.4).
pub fn is_final_or_annotation(one: &Mod) -> bool
    ensures { IsTrue result ↔ IsFinalOrAnnotation (mod_shown one.now) }
{
    match one {
        Mod::Word(tok) => is_key(tok, FINAL),
        Mod::Mark { .. } | Mod::Suppress { .. } => true,
    }
}
