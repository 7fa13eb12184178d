ghost use Rattle.std.specs.Prelude.{◌↔◌, ◌⊎◌, IsTrue, IfSome, option_map};
ghost use Rattle.rf_jtree.specs.DeclFits.{IsAccessOrAnnotation, CtorModsFit, CtorCallFits, RetFits, BodyFits, IsCallable, IsCtor, MemberFits};
ghost use Rattle.rf_jtree.specs.DeclShown.{names_shown, params_shown, ctor_call_shown, ret_shown, body_shown, member_shown};
ghost use Rattle.rf_jtree.specs.Kinds.{IsKey};
ghost use Rattle.rf_jtree.specs.NameFits.{EachFits};
ghost use Rattle.rf_jtree.specs.NameShown.{mod_shown, mods_shown};

use crate::expr_checks::args_fit;
use crate::member_parts::{names_fit, params_fit};
use crate::mod_checks::mods_fit;
use crate::name_checks::{are_braces, type_fits};
use crate::stmt_checks::{block_fits, stmts_fit};
use crate::stmt_form_checks::is_key_or_none;
use crate::variable_checks::vars_fit;
use rf_jfit::{is_ident, is_key, is_key_of, is_op};
use rf_jtree::keyword_names::{ACCESSES, STATIC, SUPER, THIS, THROWS, VOID};
use rf_jtree::operator_names::SEMICOLON;
use rf_jtree::{Body, CtorCall, Many, Member, Mod, Name, Params, Ret, Tok};
use rf_text::List;

fn is_access_or_annotation(modifier: &Mod) -> bool
    ensures { IsTrue result ↔ IsAccessOrAnnotation (mod_shown modifier.now) }
{
    match modifier {
        Mod::Word(tok) => is_key_of(tok, &ACCESSES),
        Mod::Mark { .. } | Mod::Suppress { .. } => true,
    }
}

fn are_access_and_annotations(mods: &[Mod]) -> bool
    ensures { IsTrue result ↔ EachFits IsAccessOrAnnotation (mods_shown mods.now) }
{
    match mods {
        [] => true,
        [one, more @ ..] => is_access_or_annotation(one) && are_access_and_annotations(more),
    }
}

fn ctor_mods_fit(mods: &List<Mod>) -> bool
    ensures { IsTrue result ↔ CtorModsFit (mods_shown mods.now) }
{
    mods_fit(mods) && are_access_and_annotations(mods.as_slice())
}

fn is_this_or_super(word: &Tok) -> bool
    ensures { IsTrue result ↔ ((IsKey THIS word.now) ⊎ (IsKey SUPER word.now)) }
{
    is_key(word, THIS) || is_key(word, SUPER)
}

fn ctor_call_fits(call: &Option<CtorCall>) -> bool
    ensures { IsTrue result ↔ IfSome (option_map ctor_call_shown call.now) CtorCallFits }
{
    match call {
        None => true,
        Some(call) => {
            is_this_or_super(&call.word) && args_fit(&call.args) && is_op(&call.semi, SEMICOLON)
        }
    }
}

fn ret_fits(ret: &Ret) -> bool
    ensures { IsTrue result ↔ RetFits (ret_shown ret.now) }
{
    match ret {
        Ret::Void(word) => is_key(word, VOID),
        Ret::Typed(used_type) => type_fits(used_type),
    }
}

fn body_fits(body: &Body) -> bool
    ensures { IsTrue result ↔ BodyFits (body_shown body.now) }
{
    match body {
        Body::Block(block) => block_fits(block),
        Body::Semi(semi) => is_op(semi, SEMICOLON),
    }
}

fn is_callable(id: &Tok, params: &Params, throws: &Option<(Tok, Many<Name>)>) -> bool
    ensures { IsTrue result ↔ IsCallable id.now (params_shown params.now)
        (option_map names_shown throws.now) }
{
    is_ident(id) && params_fit(params) && names_fit(THROWS, throws)
}

fn is_ctor(
    id: &Tok,
    params: &Params,
    throws: &Option<(Tok, Many<Name>)>,
    left: &Tok,
    call: &Option<CtorCall>,
    right: &Tok,
) -> bool
    ensures { IsTrue result ↔ IsCtor id.now (params_shown params.now)
        (option_map names_shown throws.now) left.now (option_map ctor_call_shown call.now)
        right.now }
{
    is_callable(id, params, throws) && are_braces(left, right) && ctor_call_fits(call)
}

/// Whether a member fits, whatever type it stands in.
pub fn member_fits(member: &Member) -> bool
    ensures { IsTrue result ↔ MemberFits (member_shown member.now) }
{
    match member {
        Member::Semi(semi) => is_op(semi, SEMICOLON),
        Member::Init { word, body } => is_key_or_none(STATIC, word) && block_fits(body),
        Member::Ctor {
            mods,
            id,
            params,
            throws,
            left,
            call,
            body,
            right,
        } => {
            ctor_mods_fit(mods)
                && is_ctor(id, params, throws, left, call, right)
                && stmts_fit(body.as_slice())
        }
        Member::Method {
            mods,
            result,
            id,
            params,
            throws,
            body,
        } => {
            mods_fit(mods) && ret_fits(result) && is_callable(id, params, throws) && body_fits(body)
        }
        Member::Field {
            mods,
            used_type,
            vars,
            semi,
        } => mods_fit(mods) && type_fits(used_type) && vars_fit(vars) && is_op(semi, SEMICOLON),
    }
}
