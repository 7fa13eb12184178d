//! Members (JLS 8.3, 8.4, 8.8).

use crate::trees::Trees;
use rf_jcheck::member_fits;
use rf_jtree::Member;
use std::mem::forget;

fn fits(member: Box<Member>) -> bool {
    let fits = member_fits(&*member);
    forget(member);
    fits
}

#[test]
fn parameters_have_final_and_annotations_alone(rt: HostRuntime) {
    let t = Trees { rt: &rt };
    let right = fits(t.method(
        t.none(),
        t.params(t.two(t.word("final"), t.mark(None))),
        t.braces(),
    )) && !fits(t.method(t.none(), t.params(t.one(t.word("static"))), t.braces()));
    assert!(rt; right);
}

#[test]
fn constructors_have_an_access_word_and_annotations_alone(rt: HostRuntime) {
    let t = Trees { rt: &rt };
    let right = fits(t.ctor(t.two(t.word("private"), t.mark(None))))
        && !fits(t.ctor(t.one(t.word("final"))));
    assert!(rt; right);
}
