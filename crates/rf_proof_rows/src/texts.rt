//! Texts that are read and written again, and the first bad lines of others.

use rf_proof::{TextErr, read, write};
use std::alloc::Global;
use std::test::Fail;

/// A text, and the line that is told of it.
type Case = (&'static [u8], u64);

fn is_written_again(alloc: Global, text: &[u8]) -> bool {
    let Ok(tree) = read(alloc, text) else {
        return false;
    };
    match write(alloc, &tree) {
        Ok(again) => again.as_slice() == text,
        Err(_) => false,
    }
}

fn are_written_again(alloc: Global, texts: &[&'static [u8]]) -> bool {
    for text in texts {
        if !is_written_again(alloc, *text) {
            return false;
        }
    }
    true
}

fn is_bad_on(alloc: Global, text: &[u8], line: u64) -> bool {
    match read(alloc, text) {
        Err(TextErr::BadText { line: found }) => found == line,
        _ => false,
    }
}

fn are_bad(alloc: Global, cases: &[Case]) -> bool {
    for (text, line) in cases {
        if !is_bad_on(alloc, *text, *line) {
            return false;
        }
    }
    true
}

const TEXTS: [&[u8]; 4] = [
    b"refacola refutation 1\nfail 0\n",
    b"refacola refutation 1\nfail 18446744073709551615\n",
    b"refacola refutation 1\nremove 4294967295 65535 3\nfail 10\n",
    b"refacola refutation 1\nsplit 0 0 1\nremove 1 0 2\nsplit 2 7\nfail 2\nfail 0\n",
];

const BAD: [Case; 19] = [
    (b"", 1),
    (b"refacola refutation 1", 1),
    (b"refacola refutation 2\nfail 0\n", 1),
    (b"refacola refutation 1\n", 2),
    (b"refacola refutation 1\nfail x\n", 2),
    (b"refacola refutation 1\nfail 0", 2),
    (b"refacola refutation 1\nfail 0 \n", 2),
    (b"refacola refutation 1\nfail  0\n", 2),
    (b"refacola refutation 1\nfail 00\n", 2),
    (b"refacola refutation 1\nfail 0\r\n", 2),
    (b"refacola refutation 1\nfail 18446744073709551616\n", 2),
    (b"refacola refutation 1\nremove 4294967296 0 0\nfail 0\n", 2),
    (b"refacola refutation 1\nremove 0 65536 0\nfail 0\n", 2),
    (b"refacola refutation 1\nremove 0 0\nfail 0\n", 2),
    (b"refacola refutation 1\nsplit 0\n", 2),
    (b"refacola refutation 1\nfail 0\nfail 0\n", 3),
    (b"refacola refutation 1\nfail 0\n\n", 3),
    (b"refacola refutation 1\nremove 0 0 0\n", 3),
    (b"refacola refutation 1\nsplit 0 0 1\nfail 0\n", 4),
];

#[test]
fn what_is_read_is_written_again(rt: HostRuntime) -> Result<(), Fail> {
    assert!(rt; are_written_again(rt.alloc(), &TEXTS));
    Ok(())
}

#[test]
fn the_first_bad_line_is_told(rt: HostRuntime) -> Result<(), Fail> {
    assert!(rt; are_bad(rt.alloc(), &BAD));
    Ok(())
}
