#![tactic(auto, using(rf_jview::proofs::Walks::variables, std::proofs::lemmas::Grind::common_steps))]

ghost use Rattle.std.specs.Prelude.{◌≡◌, OnOk, option_map};
ghost use Rattle.rf_jtree.specs.DeclShown.{names_shown, params_shown, ctor_call_shown, ret_shown, body_shown, member_shown, members_shown};
ghost use Rattle.rf_jtree.specs.NameShown.{many_shown};
ghost use Rattle.rf_jtree.specs.StmtShown.{var_shown, more_vars_shown, stmts_shown};
ghost use Rattle.rf_jview.specs.Accounts.{noted};
ghost use Rattle.rf_jview.specs.DeclMarks.{ctor_call_marks, ctor_opening, ctor_body_marks, ret_marks, body_marks, callable_marks, more_fields_marks, fields_marks, member_marks, members_marks};
ghost use Rattle.rf_jview.specs.NameMarks.{option_marks};

use crate::params::{names, params};
use rf_jtree::{Body, CtorCall, Many, Member, Name, Params, Ret, Stmt, Tok, Var};
use rf_jview::accounts::{enter, note, open, plain};
use rf_jview::exprs::args;
use rf_jview::mods::{modifiers, optional_tok};
use rf_jview::names::type_use;
use rf_jview::{Account, Invocation, Mark, Opening};
use rf_jwalk::stmts::{block, stmts};
use rf_jwalk::vars::beginning;
use rf_text::{List, Memory};

fn ctor_call(call: &Option<CtorCall>, account: &mut Account) -> Result<(), Memory>
    ensures { OnOk result (account.new ≡ noted account.old
        (option_marks ctor_call_marks (option_map ctor_call_shown call.now))) }
{
    match call {
        None => Ok(()),
        Some(call) => {
            plain(account)?;
            args(&call.args, Invocation::Ctor, 1, account)?;
            plain(account)
        }
    }
}

fn opening_of(call: &Option<CtorCall>) -> Opening
    ensures { result ≡ ctor_opening (option_map ctor_call_shown call.now) }
{
    match call {
        None => Opening::ImplicitSuper,
        Some(_call) => Opening::Block,
    }
}

#[tactic(auto, using(rf_jview::proofs::Walks::blocks, std::proofs::lemmas::Grind::common_steps))]
fn ctor_body(
    call: &Option<CtorCall>,
    list: &List<Stmt>,
    account: &mut Account,
) -> Result<(), Memory>
    ensures { OnOk result (account.new ≡ noted account.old
        (ctor_body_marks (option_map ctor_call_shown call.now) (stmts_shown list.now))) }
{
    let start = enter(account)?;
    ctor_call(call, account)?;
    stmts(list.as_slice(), account)?;
    plain(account)?;
    open(account, start, opening_of(call))
}

fn method_result(of: &Ret, account: &mut Account) -> Result<(), Memory>
    ensures { OnOk result (account.new ≡ noted account.old (ret_marks (ret_shown of.now))) }
{
    match of {
        Ret::Void(_word) => plain(account),
        Ret::Typed(used_type) => type_use(used_type, account),
    }
}

fn method_body(body: &Body, account: &mut Account) -> Result<(), Memory>
    ensures { OnOk result (account.new ≡ noted account.old (body_marks (body_shown body.now))) }
{
    match body {
        Body::Block(braces) => block(braces, Opening::Block, account),
        Body::Semi(_semi) => plain(account),
    }
}

#[tactic(auto, using(rf_jview::proofs::Walks::blocks, std::proofs::lemmas::Grind::common_steps))]
fn method_rest(
    front: &Params,
    throws: &Option<(Tok, Many<Name>)>,
    body: &Body,
    account: &mut Account,
) -> Result<(), Memory>
    ensures { OnOk result (account.new ≡ noted account.old
        (callable_marks (params_shown front.now).list (option_map names_shown throws.now)
        (body_marks (body_shown body.now)))) }
{
    let start = enter(account)?;
    params(&front.list, account)?;
    plain(account)?;
    names(throws, account)?;
    method_body(body, account)?;
    open(account, start, Opening::Block)
}

#[tactic(auto, using(rf_jview::proofs::Walks::blocks, std::proofs::lemmas::Grind::common_steps))]
fn ctor_rest(
    front: &Params,
    throws: &Option<(Tok, Many<Name>)>,
    call: &Option<CtorCall>,
    list: &List<Stmt>,
    account: &mut Account,
) -> Result<(), Memory>
    ensures { OnOk result (account.new ≡ noted account.old
        (callable_marks (params_shown front.now).list (option_map names_shown throws.now)
        (ctor_body_marks (option_map ctor_call_shown call.now) (stmts_shown list.now)))) }
{
    let start = enter(account)?;
    params(&front.list, account)?;
    plain(account)?;
    names(throws, account)?;
    ctor_body(call, list, account)?;
    open(account, start, Opening::Block)
}

fn more_fields(rest: &List<(Tok, Var)>, account: &mut Account) -> Result<(), Memory>
    ensures { OnOk result
        (account.new ≡ noted account.old (more_fields_marks (more_vars_shown rest.now))) }
{
    for item in rest.as_slice() {
        plain(account)?;
        note(account, Mark::NextField)?;
        beginning(&item.1, account)?;
    }
    Ok(())
}

fn fields(vars: &Many<Var>, account: &mut Account) -> Result<(), Memory>
    ensures { OnOk result
        (account.new ≡ noted account.old (fields_marks (many_shown var_shown vars.now))) }
{
    note(account, Mark::Field)?;
    beginning(&vars.first, account)?;
    more_fields(&vars.rest, account)
}

/// A member of a type.
pub fn member(tree: &Member, account: &mut Account) -> Result<(), Memory>
    ensures { OnOk result (account.new ≡ noted account.old (member_marks (member_shown tree.now))) }
{
    match tree {
        Member::Semi(_semi) => plain(account),
        Member::Init { word, body } => {
            optional_tok(word, account)?;
            block(body, Opening::Initializer, account)
        }
        Member::Ctor {
            mods,
            id: _id,
            params: front,
            throws,
            left: _left,
            call,
            body,
            right: _right,
        } => {
            modifiers(mods, account)?;
            note(account, Mark::Ctor)?;
            ctor_rest(front, throws, call, body, account)
        }
        Member::Method {
            mods,
            result,
            id: _id,
            params: front,
            throws,
            body,
        } => {
            modifiers(mods, account)?;
            method_result(result, account)?;
            note(account, Mark::Method)?;
            method_rest(front, throws, body, account)
        }
        Member::Field {
            mods,
            used_type: of,
            vars,
            semi: _semi,
        } => {
            modifiers(mods, account)?;
            type_use(of, account)?;
            fields(vars, account)?;
            plain(account)
        }
    }
}

/// The members of a type, one after the other.
pub fn every_member(list: &List<Member>, account: &mut Account) -> Result<(), Memory>
    ensures { OnOk result
        (account.new ≡ noted account.old (members_marks (members_shown list.now))) }
{
    for one in list.as_slice() {
        member(one, account)?;
    }
    Ok(())
}
