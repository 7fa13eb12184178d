ghost use Rattle.std.specs.Prelude.{◌≡◌, [], ◌∷◌, ◌&&◌, ◌||◌, not, is_none, option_map};
ghost use Rattle.rf_jtree.specs.declared.keyword_names.TheConstants.{STATIC};
ghost use Rattle.std.specs.List.{list_all};
ghost use Rattle.rf_jtree.specs.DeclFits.{is_word_of, has_word_of, is_semi};
ghost use Rattle.rf_jtree.specs.DeclShown.{names_shown, more_names_shown, body_shown, member_shown, members_shown, decl_shown};
ghost use Rattle.rf_jtree.specs.NameShown.{many_shown, name_shown, mod_shown, mods_shown};
ghost use Rattle.rf_jtree.specs.StmtShown.{var_shown, more_vars_shown};
ghost use Rattle.rf_jexpr.specs.Reads.{is_key};
ghost use Rattle.rf_jdecl.specs.DeclMade.{var_item_shown};
ghost use Rattle.rf_jdecl.specs.DeclTests as test;

use rf_jfit::{is_key, is_key_of};
use rf_jtree::keyword_names::{ABSTRACT, CLASS, INTERFACE, NATIVE, PRIVATE, PROTECTED, STATIC};
use rf_jtree::{Body, Kw, Many, Member, Mod, Name, Tok, TypeDecl, Var};

// What classes and interfaces ask of their parts, as tests of what was read.

/// Whether the token is this keyword.
fn is_word(tok: &Tok, word: Kw) -> bool
    ensures { result ≡ is_key word tok.now }
{
    is_key(tok, word)
}

fn is_word_of(one: &Mod, words: &[Kw]) -> bool
    ensures { result ≡ is_word_of words.now (mod_shown one.now) }
{
    match one {
        Mod::Word(tok) => is_key_of(tok, words),
        Mod::Mark { .. } | Mod::Suppress { .. } => false,
    }
}

/// Whether one of these words is among the modifiers.
#[tactic(auto, using(crate::proofs::CodeLemmas::each_shown))]
fn has_word_of(mods: &[Mod], words: &[Kw]) -> bool
    ensures { result ≡ has_word_of words.now (mods_shown mods.now) }
{
    mods.iter().any(|one| is_word_of(one, words))
}

/// Whether they are neither `private` nor `protected` (JLS 7.6, 9.3, 9.4).
#[tactic(auto, unfolding(crate::specs::DeclTests::is_visible))]
fn is_visible(mods: &[Mod]) -> bool
    ensures { result ≡ test.is_visible (mods_shown mods.now) }
{
    !has_word_of(mods, &[PRIVATE, PROTECTED])
}

fn is_semi(body: &Body) -> bool
    ensures { result ≡ is_semi (body_shown body.now) }
{
    match body {
        Body::Block(_) => false,
        Body::Semi(_) => true,
    }
}

/// Whether `;` stands exactly where the method is abstract or native (JLS 8.4.7).
#[tactic(auto, unfolding(crate::specs::DeclTests::has_right_body))]
fn has_right_body(mods: &[Mod], body: &Body) -> bool
    ensures { result ≡ test.has_right_body (mods_shown mods.now) (body_shown body.now) }
{
    if has_word_of(mods, &[ABSTRACT, NATIVE]) {
        is_semi(body)
    } else {
        !is_semi(body)
    }
}

#[tactic(auto, unfolding(crate::specs::DeclTests::class_takes))]
fn class_takes(member: &Member) -> bool
    ensures { result ≡ test.class_takes (member_shown member.now) }
{
    match member {
        Member::Method { mods, body, .. } => has_right_body(mods.as_slice(), body),
        Member::Semi(_) | Member::Init { .. } | Member::Ctor { .. } | Member::Field { .. } => true,
    }
}

#[tactic(auto, using(crate::proofs::CodeLemmas::each_shown))]
fn class_takes_each(members: &[Member]) -> bool
    ensures { result ≡ list_all test.class_takes (members_shown members.now) }
{
    members.iter().all(|member| class_takes(member))
}

#[tactic(auto, unfolding(crate::specs::DeclTests::is_empty))]
fn is_one_alone(others: &[(Tok, Name)]) -> bool
    ensures { result ≡ test.is_empty (more_names_shown others.now) }
{
    match others {
        [] => true,
        [_, _more @ ..] => false,
    }
}

/// Whether there is one name at most (JLS 8.1.4).
#[tactic(auto, unfolding(crate::specs::DeclTests::is_one_name))]
fn is_one_name(names: &Option<(Tok, Many<Name>)>) -> bool
    ensures { result ≡ test.is_one_name (option_map names_shown names.now) }
{
    match names {
        None => true,
        Some((_, list)) => is_one_alone(list.rest.as_slice()),
    }
}

fn takes_as_class(decl: &TypeDecl) -> bool
    ensures { result ≡ (test.is_one_name (decl_shown decl.now).extends && list_all test.class_takes
        (decl_shown decl.now).members) }
{
    is_one_name(&decl.extends) && class_takes_each(decl.members.as_slice())
}

#[tactic(auto, unfolding(crate::specs::DeclTests::is_class))]
fn is_class(decl: &TypeDecl) -> bool
    ensures { result ≡ test.is_class (decl_shown decl.now) }
{
    is_word(&decl.word, CLASS) && takes_as_class(decl)
}

/// Whether the method is neither static nor less than public (JLS 9.4).
fn is_visible_object(mods: &[Mod]) -> bool
    ensures { result ≡ (not (has_word_of (STATIC ∷ []) (mods_shown mods.now)) && test.is_visible
        (mods_shown mods.now)) }
{
    !has_word_of(mods, &[STATIC]) && is_visible(mods)
}

#[tactic(auto, unfolding(crate::specs::DeclTests::is_interface_method))]
fn is_interface_method(mods: &[Mod], body: &Body) -> bool
    ensures { result ≡ test.is_interface_method (mods_shown mods.now) (body_shown body.now) }
{
    is_semi(body) && is_visible_object(mods)
}

#[tactic(auto, unfolding(crate::specs::DeclTests::begins_with_some))]
fn begins_with_some(item: &(Tok, Var)) -> bool
    ensures { result ≡ test.begins_with_some (var_item_shown item.now) }
{
    item.1.init.is_some()
}

#[tactic(auto, using(crate::proofs::CodeLemmas::each_shown))]
fn each_begins(rest: &[(Tok, Var)]) -> bool
    ensures { result ≡ list_all test.begins_with_some (more_vars_shown rest.now) }
{
    rest.iter().all(|item| begins_with_some(item))
}

fn each_begins_visible(mods: &[Mod], rest: &[(Tok, Var)]) -> bool
    ensures { result ≡ (list_all test.begins_with_some (more_vars_shown rest.now) && test.is_visible
        (mods_shown mods.now)) }
{
    each_begins(rest) && is_visible(mods)
}

/// Whether each of the fields begins with something and is public (JLS 9.3, 9.3.1).
#[tactic(auto, unfolding(crate::specs::DeclTests::is_interface_field))]
fn is_interface_field(mods: &[Mod], vars: &Many<Var>) -> bool
    ensures { result ≡ test.is_interface_field (mods_shown mods.now)
        (many_shown var_shown vars.now) }
{
    vars.first.init.is_some() && each_begins_visible(mods, vars.rest.as_slice())
}

#[tactic(auto, unfolding(crate::specs::DeclTests::interface_takes))]
fn interface_takes(member: &Member) -> bool
    ensures { result ≡ test.interface_takes (member_shown member.now) }
{
    match member {
        Member::Semi(_) => true,
        Member::Init { .. } | Member::Ctor { .. } => false,
        Member::Method { mods, body, .. } => is_interface_method(mods.as_slice(), body),
        Member::Field { mods, vars, .. } => is_interface_field(mods.as_slice(), vars),
    }
}

#[tactic(auto, using(crate::proofs::CodeLemmas::each_shown))]
fn interface_takes_each(members: &[Member]) -> bool
    ensures { result ≡ list_all test.interface_takes (members_shown members.now) }
{
    members.iter().all(|member| interface_takes(member))
}

fn takes_as_interface(decl: &TypeDecl) -> bool
    ensures { result ≡ (is_none (decl_shown decl.now).implements && list_all test.interface_takes
        (decl_shown decl.now).members) }
{
    decl.implements.is_none() && interface_takes_each(decl.members.as_slice())
}

#[tactic(auto, unfolding(crate::specs::DeclTests::is_interface))]
fn is_interface(decl: &TypeDecl) -> bool
    ensures { result ≡ test.is_interface (decl_shown decl.now) }
{
    is_word(&decl.word, INTERFACE) && takes_as_interface(decl)
}

fn is_class_or_interface(decl: &TypeDecl) -> bool
    ensures { result ≡ (test.is_class (decl_shown decl.now) || test.is_interface
        (decl_shown decl.now)) }
{
    is_class(decl) || is_interface(decl)
}

/// Whether the type has what a class or an interface asks for (JLS 8.1, 9.1).
#[tactic(auto, unfolding(crate::specs::DeclTests::decl_fits))]
pub(crate) fn decl_fits(decl: &TypeDecl) -> bool
    ensures { result ≡ test.decl_fits (decl_shown decl.now) }
{
    is_visible(decl.mods.as_slice()) && is_class_or_interface(decl)
}

#[tactic(auto, unfolding(crate::specs::DeclTests::is_empty))]
fn is_no_id(ids: &[(Tok, Tok)]) -> bool
    ensures { result ≡ test.is_empty ids.now }
{
    match ids {
        [] => true,
        [_, _more @ ..] => false,
    }
}

/// Whether an import of one type names its package too (JLS 7.5.1).
#[tactic(auto, unfolding(crate::specs::DeclTests::names_package))]
pub(crate) fn names_package(name: &Name, star: &Option<(Tok, Tok)>) -> bool
    ensures { result ≡ test.names_package (name_shown name.now) star.now }
{
    star.is_some() || !is_no_id(name.ids.rest.as_slice())
}
