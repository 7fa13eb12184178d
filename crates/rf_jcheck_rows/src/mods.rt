//! Modifiers (JLS 8.1.1, 8.3.1, 8.4.3, 9.7).

use crate::trees::Trees;
use rf_jcheck::mods_fit;
use rf_jtree::Mod;
use rf_text::List;
use std::mem::forget;

fn fit(mods: List<Mod>) -> bool {
    let fit = mods_fit(&mods);
    forget(mods);
    fit
}

#[test]
fn no_modifier_stands_twice_and_one_access_word_at_most(rt: HostRuntime) {
    let t = Trees { rt: &rt };
    let right = fit(t.two(t.word("public"), t.word("static")))
        && !fit(t.two(t.word("static"), t.word("static")))
        && !fit(t.two(t.word("public"), t.word("private")))
        && !fit(t.one(t.word("int")))
        && !fit(t.two(t.mark(None), t.mark(Some((t.tok("("), t.tok(")"))))))
        && fit(t.two(t.mark(None), t.word("final")));
    assert!(rt; right);
}
