//! Files as texts: `«` and `»` stand around the package clause, each import, the type, each member and a call of another
//! constructor, and around the parts that statements are told with.

use crate::exprs::tell_args;
use crate::parts::{tell_mods, tell_tok, tell_vars};
use crate::stmts::{tell_block, tell_stmts};
use crate::tree_text::TreeText;
use rf_jtree::{
    Body, CtorCall, Import, Many, Member, Name, Param, Params, Ret, Tok, TypeDecl, Unit,
};
use rf_text::{Bytes, List, Memory};
use std::alloc::Global;

/// A file as a text.
pub(crate) fn unit_told(alloc: Global, unit: &Unit) -> Result<Bytes, Memory> {
    let mut text = TreeText::new(alloc);
    tell_unit(&mut text, unit);
    text.into_bytes()
}

fn tell_unit(text: &mut TreeText, unit: &Unit) {
    tell_package(text, &unit.package);
    for import in unit.imports.as_slice() {
        tell_import(text, import);
    }
    tell_decl(text, &unit.decl);
    for semi in unit.semis.as_slice() {
        text.tok(semi);
    }
}

fn tell_package(text: &mut TreeText, clause: &Option<(Tok, Name, Tok)>) {
    match clause {
        Some((word, name, semi)) => {
            text.open();
            text.tok(word);
            text.name(name);
            text.tok(semi);
            text.close();
        }
        None => (),
    }
}

fn tell_import(text: &mut TreeText, import: &Import) {
    text.open();
    text.tok(&import.word);
    text.name(&import.name);
    match &import.star {
        Some((dot, times)) => {
            text.tok(dot);
            text.tok(times);
        }
        None => (),
    }
    text.tok(&import.semi);
    text.close();
}

/// Names behind a keyword, as behind `throws`.
fn tell_names(text: &mut TreeText, names: &Option<(Tok, Many<Name>)>) {
    match names {
        Some((word, names)) => {
            text.tok(word);
            text.name(&names.first);
            for (comma, name) in names.rest.as_slice() {
                text.tok(comma);
                text.name(name);
            }
        }
        None => (),
    }
}

fn tell_decl(text: &mut TreeText, decl: &TypeDecl) {
    text.open();
    tell_mods(text, &decl.mods);
    text.tok(&decl.word);
    text.tok(&decl.id);
    tell_names(text, &decl.extends);
    tell_names(text, &decl.implements);
    text.tok(&decl.left);
    for member in decl.members.as_slice() {
        text.open();
        tell_member(text, member);
        text.close();
    }
    text.tok(&decl.right);
    text.close();
}

// ---- members

fn tell_param(text: &mut TreeText, param: &Param) {
    tell_mods(text, &param.mods);
    text.type_use(&param.used_type);
    text.tok(&param.id);
    text.dims(&param.dims);
}

fn tell_params(text: &mut TreeText, params: &Params) {
    text.tok(&params.left);
    match &params.list {
        Some(list) => {
            tell_param(text, &list.first);
            for (comma, param) in list.rest.as_slice() {
                text.tok(comma);
                tell_param(text, param);
            }
        }
        None => (),
    }
    text.tok(&params.right);
}

/// The name of a constructor or a method, its parameters and what it throws.
fn tell_callable(
    text: &mut TreeText,
    id: &Tok,
    params: &Params,
    throws: &Option<(Tok, Many<Name>)>,
) {
    text.tok(id);
    tell_params(text, params);
    tell_names(text, throws);
}

fn tell_call(text: &mut TreeText, call: &Option<CtorCall>) {
    match call {
        Some(call) => {
            text.open();
            text.tok(&call.word);
            tell_args(text, &call.args);
            text.tok(&call.semi);
            text.close();
        }
        None => (),
    }
}

fn tell_ret(text: &mut TreeText, ret: &Ret) {
    match ret {
        Ret::Void(word) => text.tok(word),
        Ret::Typed(used_type) => text.type_use(used_type),
    }
}

fn tell_body(text: &mut TreeText, body: &Body) {
    match body {
        Body::Block(block) => tell_block(text, block),
        Body::Semi(semi) => text.tok(semi),
    }
}

fn tell_member(text: &mut TreeText, member: &Member) {
    match member {
        Member::Semi(semi) => text.tok(semi),
        Member::Init { word, body } => {
            tell_tok(text, word);
            tell_block(text, body);
        }
        Member::Ctor {
            mods,
            id,
            params,
            throws,
            left,
            call,
            body,
            right,
        } => {
            tell_mods(text, mods);
            tell_callable(text, id, params, throws);
            text.tok(left);
            tell_call(text, call);
            tell_stmts(text, body);
            text.tok(right);
        }
        Member::Method {
            mods,
            result: ret,
            id,
            params,
            throws,
            body,
        } => {
            tell_mods(text, mods);
            tell_ret(text, ret);
            tell_callable(text, id, params, throws);
            tell_body(text, body);
        }
        Member::Field {
            mods,
            used_type,
            vars,
            semi,
        } => {
            tell_mods(text, mods);
            text.type_use(used_type);
            tell_vars(text, vars);
            text.tok(semi);
        }
    }
}
