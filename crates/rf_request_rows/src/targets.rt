//! Target lines.

use crate::told::{Case, all_read};

const RENAMES: [Case; 6] = [
    (b"rename type A to B", b"rename type A to B/1 [ ] ( ) 1000"),
    (
        b"rename field A.f to g",
        b"rename field A.f to g/1 [ ] ( ) 1000",
    ),
    (
        b"rename method A.m(int) to n\n",
        b"rename method A.m(int) to n/1 [ ] ( ) 1000",
    ),
    (
        b"rename local A.m(int):x#2 to y",
        b"rename local A.m(int):x#2 to y/1 [ ] ( ) 1000",
    ),
    (
        b"rename local # to $",
        b"rename local # to $/1 [ ] ( ) 1000",
    ),
    (
        b"rename type to to \xc3\xa9_9",
        b"rename type to to \xc3\xa9_9/1 [ ] ( ) 1000",
    ),
];

const OTHERS: [Case; 9] = [
    (b"move type p.C to q", b"move type p.C to q/1 [ ] ( ) 1000"),
    (
        b"move type C to a.b1.$c",
        b"move type C to a.b1.$c/1 [ ] ( ) 1000",
    ),
    (
        b"pull field C.f to p.A",
        b"pull field C.f to p.A/1 [ ] ( ) 1000",
    ),
    (
        b"pull method C.m() to int",
        b"pull method C.m() to int/1 [ ] ( ) 1000",
    ),
    (
        b"access type A to private",
        b"access type A to private/1 [ ] ( ) 1000",
    ),
    (
        b"access field A.f to package",
        b"access field A.f to package/1 [ ] ( ) 1000",
    ),
    (
        b"access method A.m() to protected",
        b"access method A.m() to protected/1 [ ] ( ) 1000",
    ),
    (
        b"access ctor A.new() to public",
        b"access ctor A.new() to public/1 [ ] ( ) 1000",
    ),
    (
        b"access ctor public to public",
        b"access ctor public to public/1 [ ] ( ) 1000",
    ),
];

const LINES: [Case; 8] = [
    (
        b"\t rename \t type  A\tto B \t",
        b"rename type A to B/1 [ ] ( ) 1000",
    ),
    (
        b"rename type A to B\r\n",
        b"rename type A to B/1 [ ] ( ) 1000",
    ),
    (
        b"\n\r\n \t\n#\n # rename type C to D\n#x\r\nrename type A to B",
        b"rename type A to B/7 [ ] ( ) 1000",
    ),
    (
        b"rename type A to B\n#\r\n\n  \r\n",
        b"rename type A to B/1 [ ] ( ) 1000",
    ),
    (
        b"rename type A\r to B\n",
        b"rename type A\r to B/1 [ ] ( ) 1000",
    ),
    (b"move type A# to b", b"move type A# to b/1 [ ] ( ) 1000"),
    (
        b"pull field \xe2\x82\xac to A\r",
        b"pull field \xe2\x82\xac to A\r/1 [ ] ( ) 1000",
    ),
    (
        b"#\xc3\xa9\nmove type \xc2\xa0 to b",
        b"move type \xc2\xa0 to b/2 [ ] ( ) 1000",
    ),
];

#[test]
fn names_are_changed(rt: HostRuntime) {
    assert!(rt; all_read(rt.alloc(), &RENAMES));
}

#[test]
fn packages_owners_and_access_words_are_changed(rt: HostRuntime) {
    assert!(rt; all_read(rt.alloc(), &OTHERS));
}

#[test]
fn lines_end_and_are_skipped(rt: HostRuntime) {
    assert!(rt; all_read(rt.alloc(), &LINES));
}
