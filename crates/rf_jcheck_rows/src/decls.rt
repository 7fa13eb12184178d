//! Types and files (JLS 7, 8, 9).

use crate::trees::Trees;
use rf_jcheck::{decl_fits, unit_fits};
use rf_jtree::{TypeDecl, Unit};
use std::mem::forget;

fn fits(decl: Box<TypeDecl>) -> bool {
    let fits = decl_fits(&*decl);
    forget(decl);
    fits
}

fn is_file(unit: Box<Unit>) -> bool {
    let fits = unit_fits(&*unit);
    forget(unit);
    fits
}

#[test]
fn a_type_is_neither_private_nor_protected(rt: HostRuntime) {
    let t = Trees { rt: &rt };
    let right = fits(t.decl_with(
        t.one(t.word("static")),
        "class",
        t.member_field(t.none(), None),
    )) && !fits(t.decl_with(
        t.one(t.word("private")),
        "class",
        t.member_field(t.none(), None),
    ));
    assert!(rt; right);
}

#[test]
fn a_method_of_a_class_has_a_body_unless_it_is_abstract_or_native(rt: HostRuntime) {
    let t = Trees { rt: &rt };
    let right = fits(t.decl("class", t.method(t.none(), t.no_params(), t.braces())))
        && !fits(t.decl("class", t.method(t.none(), t.no_params(), t.semi())))
        && fits(t.decl(
            "class",
            t.method(t.one(t.word("abstract")), t.no_params(), t.semi()),
        ))
        && !fits(t.decl(
            "class",
            t.method(t.one(t.word("native")), t.no_params(), t.braces()),
        ));
    assert!(rt; right);
}

#[test]
fn methods_of_an_interface_have_no_body_and_are_not_static(rt: HostRuntime) {
    let t = Trees { rt: &rt };
    let right = fits(t.decl(
        "interface",
        t.method(t.one(t.word("final")), t.no_params(), t.semi()),
    )) && !fits(t.decl("interface", t.method(t.none(), t.no_params(), t.braces())))
        && !fits(t.decl(
            "interface",
            t.method(t.one(t.word("static")), t.no_params(), t.semi()),
        ))
        && !fits(t.decl(
            "interface",
            t.method(t.one(t.word("private")), t.no_params(), t.semi()),
        ));
    assert!(rt; right);
}

#[test]
fn fields_of_an_interface_begin_with_something(rt: HostRuntime) {
    let t = Trees { rt: &rt };
    let right = fits(t.decl("interface", t.member_field(t.none(), t.begins())))
        && !fits(t.decl("interface", t.member_field(t.none(), None)))
        && !fits(t.decl(
            "interface",
            t.member_field(t.one(t.word("protected")), t.begins()),
        ));
    assert!(rt; right);
}

#[test]
fn an_interface_has_neither_constructors_nor_initializers(rt: HostRuntime) {
    let t = Trees { rt: &rt };
    let right = fits(t.decl("class", t.ctor(t.none())))
        && !fits(t.decl("interface", t.ctor(t.none())))
        && fits(t.decl("class", t.initializer()))
        && !fits(t.decl("interface", t.initializer()));
    assert!(rt; right);
}

#[test]
fn an_import_of_one_type_names_its_package(rt: HostRuntime) {
    let t = Trees { rt: &rt };
    let right = is_file(t.unit(Some((t.tok("."), t.tok("*"))))) && !is_file(t.unit(None));
    assert!(rt; right);
}
