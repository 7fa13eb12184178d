//! Lines behind the target line.

use crate::told::{Case, all_read};

const OPENED: [Case; 7] = [
    (
        b"move type A to b\nallow names",
        b"move type A to b/1 [ names ] ( ) 1000",
    ),
    (
        b"move type A to b\nallow imports owners",
        b"move type A to b/1 [ owners imports ] ( ) 1000",
    ),
    (
        b"move type A to b\nallow access names access access",
        b"move type A to b/1 [ names access ] ( ) 1000",
    ),
    (
        b"move type A to b\nspare h",
        b"move type A to b/1 [ ] ( h ) 1000",
    ),
    (
        b"move type A to b\nspare k h k h i k",
        b"move type A to b/1 [ ] ( k h i ) 1000",
    ),
    (
        b"move type A to b\nspare names $ spare\nallow names",
        b"move type A to b/1 [ names ] ( names $ spare ) 1000",
    ),
    (
        b"move type A to b\nspare B to",
        b"move type A to b/1 [ ] ( B to ) 1000",
    ),
];

const DECISIONS: [Case; 5] = [
    (
        b"move type A to b\ndecisions 0",
        b"move type A to b/1 [ ] ( ) 0",
    ),
    (
        b"move type A to b\ndecisions 7",
        b"move type A to b/1 [ ] ( ) 7",
    ),
    (
        b"move type A to b\ndecisions 10",
        b"move type A to b/1 [ ] ( ) 10",
    ),
    (
        b"move type A to b\ndecisions 999999",
        b"move type A to b/1 [ ] ( ) 999999",
    ),
    (
        b"move type A to b\ndecisions 1000000",
        b"move type A to b/1 [ ] ( ) 1000000",
    ),
];

const KEPT: [Case; 4] = [
    (
        b"move type A to b\nkeep type A\nkeep field A.f\nkeep method m\nkeep ctor c\nkeep local x",
        b"move type A to b/1 [ ] ( ) 1000 keep type A/2 keep field A.f/3 keep method m/4 keep ctor c/5 keep local x/6",
    ),
    (
        b"move type A to b\nkeep type A\n\nkeep type A",
        b"move type A to b/1 [ ] ( ) 1000 keep type A/2 keep type A/4",
    ),
    (
        b"move type A to b\nrules r.txt\nrules a/b\nrules #\nrules r.txt",
        b"move type A to b/1 [ ] ( ) 1000 rules r.txt/2 rules a/b/3 rules #/4 rules r.txt/5",
    ),
    (
        b"rename field A.x to y\nallow names\nspare h k\nkeep type A\nkeep method A.m(int,int,int)\nrules r.txt\ndecisions 0",
        b"rename field A.x to y/1 [ names ] ( h k ) 0 keep type A/4 keep method A.m(int,int,int)/5 rules r.txt/6",
    ),
];

const ORDERS: [Case; 2] = [
    (
        b"move type A to b\r\ndecisions 5\r\nrules r\r\nspare h\r\n#\r\nkeep type A\r\nallow owners\r\n",
        b"move type A to b/1 [ owners ] ( h ) 5 keep type A/6 rules r/3",
    ),
    (
        b"move type A to b\n\tkeep  type\tA \n rules r\n",
        b"move type A to b/1 [ ] ( ) 1000 keep type A/2 rules r/3",
    ),
];

#[test]
fn properties_are_opened(rt: HostRuntime) {
    assert!(rt; all_read(rt.alloc(), &OPENED));
}

#[test]
fn decisions_are_counted(rt: HostRuntime) {
    assert!(rt; all_read(rt.alloc(), &DECISIONS));
}

#[test]
fn elements_and_files_are_listed(rt: HostRuntime) {
    assert!(rt; all_read(rt.alloc(), &KEPT));
}

#[test]
fn lines_come_in_any_order(rt: HostRuntime) {
    assert!(rt; all_read(rt.alloc(), &ORDERS));
}
