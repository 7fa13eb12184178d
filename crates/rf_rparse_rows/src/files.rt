//! Whole files with their programs.

use crate::told::program_told;
use rf_rparse::{RuleErr, parse_rules};
use std::alloc::Global;

/// A file, and the program that it reads to.
pub(crate) type Case = (&'static [u8], &'static [u8]);

/// Whether a file reads to the program.
pub(crate) fn reads(alloc: Global, text: &[u8], told: &[u8]) -> Result<bool, RuleErr> {
    if text.len() > 1000 {
        return Ok(false);
    }
    let prog = parse_rules(alloc, text)?;
    let found = program_told(alloc, &prog)?;
    Ok(found.as_slice() == told)
}

fn all_read(alloc: Global, cases: &[Case]) -> bool {
    for (text, told) in cases {
        if !matches!(reads(alloc, text, told), Ok(true)) {
            return false;
        }
    }
    true
}

const ITEMS: [Case; 8] = [
    (b"", b""),
    (b" \t\r\n", b""),
    (
        b"rule r for t:type then true end",
        b"[rule r t:type | | true]",
    ),
    (
        b"derive d for t:type means true end",
        b"[derive d t:type | | true]",
    ),
    (
        b"rule r for t:type, m:method if q(t), o(m, t) then false end",
        b"[rule r t:type m:method | q( t ) o( m t ) | false]",
    ),
    (
        b"derive d for a:b, c:d, e:f, g:h means true end",
        b"[derive d a:b c:d e:f g:h | | true]",
    ),
    (
        b"rule a for t:u then true end rule a for t:u then false end",
        b"[rule a t:u | | true][rule a t:u | | false]",
    ),
    (
        b"derive a for t:u means false end rule b for t:u then true end",
        b"[derive a t:u | | false][rule b t:u | | true]",
    ),
];

const BLANKS: [Case; 8] = [
    (b"#", b""),
    (b"# rule", b""),
    (b"# \xc3\xa9\n", b""),
    (
        b"rule#\"\nr for t:type then true end#",
        b"[rule r/2 t/2:type/2 | | true]",
    ),
    (
        b"rule\tr for t :type\r\nthen true end\r\n",
        b"[rule r t:type | | true]",
    ),
    (
        b"rule r for t:type then(true)end",
        b"[rule r t:type | | true]",
    ),
    (
        b"rule r for t:u then\"#\"!=t end",
        b"[rule r t:u | | (!= text # t)]",
    ),
    (
        b"rule r for t:u then t=\"\xc3\xa9\t:.!<@\"end",
        b"[rule r t:u | | (= t text \xc3\xa9\t:.!<@)]",
    ),
];

const LINES: [Case; 4] = [
    (
        b"rule\nr\nfor\nt\n:\nu\nthen true\nend",
        b"[rule r/2 t/4:u/6 | | true]",
    ),
    (
        b"\nrule r for t:u if\nq\n(\nt\n) then true end",
        b"[rule r/2 t/2:u/2 | q/3( t/5 ) | true]",
    ),
    (
        b"rule r for t:u then\nold\n(\nt.\nname) = public end",
        b"[rule r t:u | | (= old/2 t/4.name/5 access public/5)]",
    ),
    (
        b"rule r for t:u then t\n.\r\npackage\n=\n\"\" end",
        b"[rule r t:u | | (= t.package/3 text /5)]",
    ),
];

const NAMES: [Case; 4] = [
    (
        b"rule a for own:j_ then true end",
        b"[rule a own:j_ | | true]",
    ),
    (
        b"rule rules for a1_:z then true end",
        b"[rule rules a1_:z | | true]",
    ),
    (
        b"rule ender for nota:b then true end",
        b"[rule ender nota:b | | true]",
    ),
    (
        b"rule publics for a:b__9 then true end",
        b"[rule publics a:b__9 | | true]",
    ),
];

#[test]
fn items_follow_each_other(rt: HostRuntime) {
    assert!(rt; all_read(rt.alloc(), &ITEMS));
}

#[test]
fn blanks_and_comments_stand_between_tokens_alone(rt: HostRuntime) {
    assert!(rt; all_read(rt.alloc(), &BLANKS));
}

#[test]
fn words_keep_their_lines(rt: HostRuntime) {
    assert!(rt; all_read(rt.alloc(), &LINES));
}

#[test]
fn names_go_on_as_long_as_they_can(rt: HostRuntime) {
    assert!(rt; all_read(rt.alloc(), &NAMES));
}
