//! Texts that are no requests, each with the line that is told of it.

use rf_request::{ReqErr, read_request};
use std::alloc::Global;

/// A text, and the line that is told of it.
type Case = (&'static [u8], u32);

fn faults_on(alloc: Global, text: &[u8], line: u32) -> bool {
    if text.len() > 1000 {
        return false;
    }
    match read_request(alloc, text) {
        Err(ReqErr::Syntax { line: found }) => found == line,
        _ => false,
    }
}

fn all_fault(alloc: Global, cases: &[Case]) -> bool {
    for (text, line) in cases {
        if !faults_on(alloc, text, *line) {
            return false;
        }
    }
    true
}

const TEXTS: [Case; 8] = [
    (b"", 0),
    (b"\n \t\r\n", 0),
    (b"# rename type A to B\n", 0),
    (b"\xff", 1),
    (b"rename type A to B\n# \xc3", 1),
    (b"\nallow", 2),
    (b"\r\nallow names\nrename type A to B", 2),
    (b"\r", 1),
];

const TARGETS: [Case; 24] = [
    (b"rename field A.f", 1),
    (b"rename field A.f to", 1),
    (b"rename field A.f to g h", 1),
    (b"rename field to g", 1),
    (b"rename field A.f t g", 1),
    (b"rename field A.f TO g", 1),
    (b"Rename field A.f to g", 1),
    (b"renamed field A.f to g", 1),
    (b"rename fields A.f to g", 1),
    (b"rename ctor A.new() to g", 1),
    (b"rename field A.f to class", 1),
    (b"rename field A.f to null", 1),
    (b"rename field A.f to 1g", 1),
    (b"rename field A.f to g.h", 1),
    (b"rename type A to B\r", 1),
    (b"move field A.f to q", 1),
    (b"move type A to .q", 1),
    (b"move type A to p..q", 1),
    (b"move type A to p.", 1),
    (b"move type A to p.int", 1),
    (b"pull type A to B", 1),
    (b"pull local A.m():x to B", 1),
    (b"access local A.m():x to public", 1),
    (b"access field A.f to open", 1),
];

const CHOICES: [Case; 24] = [
    (b"move type A to b\nallow", 2),
    (b"move type A to b\nallow name", 2),
    (b"move type A to b\nallow names accesses", 2),
    (b"move type A to b\nallow names\nallow access", 3),
    (b"move type A to b\nallow names\nallow names", 3),
    (b"move type A to b\nspare", 2),
    (b"move type A to b\nspare h if", 2),
    (b"move type A to b\nspare h,k", 2),
    (b"move type A to b\nspare h\n\nspare k", 4),
    (b"move type A to b\ndecisions", 2),
    (b"move type A to b\ndecisions 1 2", 2),
    (b"move type A to b\ndecisions 1000001", 2),
    (b"move type A to b\ndecisions 00", 2),
    (b"move type A to b\ndecisions 007", 2),
    (b"move type A to b\ndecisions +7", 2),
    (b"move type A to b\ndecisions -1", 2),
    (b"move type A to b\ndecisions 99999999999999999999999", 2),
    (b"move type A to b\ndecisions 1\ndecisions 1", 3),
    (b"move type A to b\nkeep type", 2),
    (b"move type A to b\nkeep unit A", 2),
    (b"move type A to b\nkeep type A B", 2),
    (b"move type A to b\nrules", 2),
    (b"move type A to b\nrules a b", 2),
    (b"move type A to b\nmove type A to b", 2),
];

const FIRSTS: [Case; 5] = [
    (b"rename\nallow\n", 1),
    (b"move type A to b\nrules a\nkeep\nallow", 3),
    (b"move type A to b\r\n\r\n#\r\nkept type A\r\nallow", 4),
    (b"move type A to b\nallow names\nrules\nallow names", 3),
    (b"move type A to b\n#\nallow names #", 3),
];

#[test]
fn texts_without_a_target_line_are_told(rt: HostRuntime) {
    assert!(rt; all_fault(rt.alloc(), &TEXTS));
}

#[test]
fn target_lines_have_their_forms(rt: HostRuntime) {
    assert!(rt; all_fault(rt.alloc(), &TARGETS));
}

#[test]
fn other_lines_have_their_forms(rt: HostRuntime) {
    assert!(rt; all_fault(rt.alloc(), &CHOICES));
}

#[test]
fn the_first_faulty_line_is_told(rt: HostRuntime) {
    assert!(rt; all_fault(rt.alloc(), &FIRSTS));
}
