ghost use Rattle.std.specs.Prelude.{◌≡◌, ◌↔◌, IsTrue, IsSome, IfSome, option_map};
ghost use Rattle.rf_jtree.specs.declared.tokens.Tok.{Tok};
ghost use Rattle.rf_jtree.specs.DeclFits.{MemberFits, is_semi, ClassTakes, IsInterfaceMethod, EachBegins, IsInterfaceField, InterfaceTakes, IsOneName, IsClass, IsInterface, DeclFits};
ghost use Rattle.rf_jtree.specs.DeclShown.{names_shown, body_shown, member_shown, members_shown, decl_shown};
ghost use Rattle.rf_jtree.specs.NameFits.{EachFits};
ghost use Rattle.rf_jtree.specs.NameShown.{many_shown, mods_shown};
ghost use Rattle.rf_jtree.specs.StmtShown.{var_shown, more_vars_shown};
ghost use Rattle.rf_jtree.specs.StmtTrees.{VarTree};

use crate::member_checks::member_fits;
use crate::member_parts::{has_word_of, is_visible, names_fit};
use crate::mod_checks::mods_fit;
use crate::name_checks::are_braces;
use rf_jfit::{is_ident, is_key};
use rf_jtree::keyword_names::{ABSTRACT, CLASS, EXTENDS, IMPLEMENTS, INTERFACE, NATIVE, STATIC};
use rf_jtree::{Body, Many, Member, Mod, Name, Tok, TypeDecl, Var};
use rf_text::List;

fn is_semi(body: &Body) -> bool
    ensures { result ≡ is_semi (body_shown body.now) }
{
    match body {
        Body::Block(_) => false,
        Body::Semi(_) => true,
    }
}

fn class_takes(member: &Member) -> bool
    ensures { IsTrue result ↔ ClassTakes (member_shown member.now) }
{
    match member {
        Member::Method { mods, body, .. } => {
            is_semi(body) == has_word_of(mods.as_slice(), &[ABSTRACT, NATIVE])
        }
        Member::Semi(_) | Member::Init { .. } | Member::Ctor { .. } | Member::Field { .. } => true,
    }
}

fn class_takes_each(members: &[Member]) -> bool
    ensures { IsTrue result ↔ EachFits ClassTakes (members_shown members.now) }
{
    match members {
        [] => true,
        [member, more @ ..] => class_takes(member) && class_takes_each(more),
    }
}

fn is_interface_method(mods: &List<Mod>, body: &Body) -> bool
    ensures { IsTrue result ↔ IsInterfaceMethod (mods_shown mods.now) (body_shown body.now) }
{
    is_semi(body) && !has_word_of(mods.as_slice(), &[STATIC]) && is_visible(mods)
}

fn begins(var: &Var) -> bool
    ensures { IsTrue result ↔ IsSome (var_shown var.now).init }
{
    var.init.is_some()
}

fn more_vars_begin(rest: &[(Tok, Var)]) -> bool
    ensures { IsTrue result ↔ EachFits (λ (item : Tok × VarTree). IsSome item.1.init)
        (more_vars_shown rest.now) }
{
    match rest {
        [] => true,
        [item, more @ ..] => begins(&item.1) && more_vars_begin(more),
    }
}

fn each_begins(vars: &Many<Var>) -> bool
    ensures { IsTrue result ↔ EachBegins (many_shown var_shown vars.now) }
{
    begins(&vars.first) && more_vars_begin(vars.rest.as_slice())
}

fn is_interface_field(mods: &List<Mod>, vars: &Many<Var>) -> bool
    ensures { IsTrue result ↔ IsInterfaceField (mods_shown mods.now)
        (many_shown var_shown vars.now) }
{
    each_begins(vars) && is_visible(mods)
}

fn interface_takes(member: &Member) -> bool
    ensures { IsTrue result ↔ InterfaceTakes (member_shown member.now) }
{
    match member {
        Member::Semi(_) => true,
        Member::Init { .. } | Member::Ctor { .. } => false,
        Member::Method { mods, body, .. } => is_interface_method(mods, body),
        Member::Field { mods, vars, .. } => is_interface_field(mods, vars),
    }
}

fn interface_takes_each(members: &[Member]) -> bool
    ensures { IsTrue result ↔ EachFits InterfaceTakes (members_shown members.now) }
{
    match members {
        [] => true,
        [member, more @ ..] => interface_takes(member) && interface_takes_each(more),
    }
}

fn has_one_name_at_most(names: &Option<(Tok, Many<Name>)>) -> bool
    ensures { IsTrue result ↔ IfSome (option_map names_shown names.now) IsOneName }
{
    match names {
        None => true,
        Some(part) => part.1.rest.is_empty(),
    }
}

fn is_class(decl: &TypeDecl) -> bool
    ensures { IsTrue result ↔ IsClass (decl_shown decl.now) }
{
    is_key(&decl.word, CLASS)
        && has_one_name_at_most(&decl.extends)
        && class_takes_each(decl.members.as_slice())
}

fn is_interface(decl: &TypeDecl) -> bool
    ensures { IsTrue result ↔ IsInterface (decl_shown decl.now) }
{
    is_key(&decl.word, INTERFACE)
        && decl.implements.is_none()
        && interface_takes_each(decl.members.as_slice())
}

fn members_fit(members: &[Member]) -> bool
    ensures { IsTrue result ↔ EachFits MemberFits (members_shown members.now) }
{
    match members {
        [] => true,
        [member, more @ ..] => member_fits(member) && members_fit(more),
    }
}

/// Whether a class or an interface fits.
pub fn decl_fits(decl: &TypeDecl) -> bool
    ensures { IsTrue result ↔ DeclFits (decl_shown decl.now) }
{
    mods_fit(&decl.mods)
        && is_visible(&decl.mods)
        && (is_class(decl) || is_interface(decl))
        && is_ident(&decl.id)
        && names_fit(EXTENDS, &decl.extends)
        && names_fit(IMPLEMENTS, &decl.implements)
        && are_braces(&decl.left, &decl.right)
        && members_fit(decl.members.as_slice())
}
