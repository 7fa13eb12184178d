//! Files that have no reading, each with the line of the first token that can't go on.

use rf_rparse::{RuleErr, parse_rules};
use std::alloc::Global;

/// A file, and the line that is told of it.
type Case = (&'static [u8], u32);

fn faults_on(alloc: Global, text: &[u8], line: u32) -> bool {
    if text.len() > 1000 {
        return false;
    }
    match parse_rules(alloc, text) {
        Err(RuleErr::Syntax { line: found }) => found == line,
        _ => false,
    }
}

fn all_fault(alloc: Global, cases: &[Case]) -> bool {
    for (text, line) in cases {
        if !faults_on(alloc, text, *line) {
            return false;
        }
    }
    true
}

const ITEMS: [Case; 16] = [
    (b"\nend", 2),
    (b"rule\nrule r", 2),
    (b"rule\npublic for", 2),
    (b"rule r\nt:u then", 2),
    (b"rule r for\nthen true end", 2),
    (b"rule r for t\nu then true end", 2),
    (b"rule r for t:\nfor then true end", 2),
    (b"rule r for t:u\nmeans true end", 2),
    (b"derive r for t:u\nthen true end", 2),
    (b"rule r for a:u,b:u,c:u,d:u\n,e:u then true end", 2),
    (b"rule r for t:u if\nthen true end", 2),
    (b"rule r for t:u if q\nthen true end", 2),
    (b"rule r for t:u if q(\n) then true end", 2),
    (b"rule r for t:u if q(t,\n) then true end", 2),
    (b"rule r for t:u then true end\nend", 2),
    (b"rule r for t:u then true\nrule", 2),
];

const FORMULAS: [Case; 20] = [
    (b"rule r for t:u then\nend", 2),
    (b"rule r for t:u then true\nfalse end", 2),
    (b"rule r for t:u then true and\nor true end", 2),
    (b"rule r for t:u then not\nend", 2),
    (b"rule r for t:u then (true\nend", 2),
    (b"rule r for t:u then true\n) end", 2),
    (b"rule r for t:u then (\n) end", 2),
    (b"rule r for t:u then all x:k:\ntrue end", 2),
    (b"rule r for t:u then all x:k\n(true) end", 2),
    (b"rule r for t:u then all\n:(true) end", 2),
    (
        b"rule r for t:u then some a:k,b:k,c:k,d:k\n,e:k:(true) end",
        2,
    ),
    (b"rule r for t:u then t\nend", 2),
    (b"rule r for t:u then t.name\nend", 2),
    (b"rule r for t:u then t =\nend", 2),
    (b"rule r for t:u then t = u\n= t end", 2),
    (b"rule r for t:u then t.\npublic = u end", 2),
    (b"rule r for t:u then old\nt.name = u end", 2),
    (b"rule r for t:u then old(t\n) = u end", 2),
    (b"rule r for t:u then p(t\n= u end", 2),
    (b"rule r for t:u then t = true\nend", 1),
];

const TOKENS: [Case; 12] = [
    (b"\n@", 2),
    (b"end\n@", 1),
    (b"rule\nR for", 2),
    (b"rule\n1 for", 2),
    (b"rule\n_a for", 2),
    (b"rule r for t:u then t\n! = u end", 2),
    (b"rule r for t:u then t\n< = u end", 2),
    (b"rule r for t:u then t =\n\"x\n\" end", 2),
    (b"rule r for t:u then t =\n\"x\r\" end", 2),
    (b"rule r for t:u then t =\n\"x", 2),
    (b"rule\n\xc3\xa9", 2),
    (b"rule # a\nend # b", 2),
];

const ENDS: [Case; 6] = [
    (b"rule", 1),
    (b"rule\n", 2),
    (b"rule r\n\n#\n", 4),
    (b"rule r for t:u then true\r\n", 2),
    (b"rule r for t:u then t =", 1),
    (b"rule r for t:u then t = u # end", 1),
];

const BYTES: [Case; 4] = [
    (b"\n\xff", 1),
    (b"\n# \xc3", 1),
    (b"end\n\x80", 1),
    (b"rule r for t:u then t = u end\n# \xed\xa0\x80", 1),
];

#[test]
fn items_tell_their_first_token_that_cannot_go_on(rt: HostRuntime) {
    assert!(rt; all_fault(rt.alloc(), &ITEMS));
}

#[test]
fn formulas_tell_their_first_token_that_cannot_go_on(rt: HostRuntime) {
    assert!(rt; all_fault(rt.alloc(), &FORMULAS));
}

#[test]
fn a_place_where_no_token_begins_is_a_token_that_cannot_go_on(rt: HostRuntime) {
    assert!(rt; all_fault(rt.alloc(), &TOKENS));
}

#[test]
fn texts_that_end_too_early_tell_their_last_line(rt: HostRuntime) {
    assert!(rt; all_fault(rt.alloc(), &ENDS));
}

#[test]
fn bytes_that_are_no_text_tell_line_one(rt: HostRuntime) {
    assert!(rt; all_fault(rt.alloc(), &BYTES));
}
