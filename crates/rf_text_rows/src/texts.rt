//! Texts: made, read back, grown, compared and found.

use rf_text::{Bytes, Memory};
use std::alloc::Global;
use std::test::Fail;

/// The bytes of `first`, then `more`, then `!`.
fn grown(alloc: Global, first: &[u8], more: &[u8]) -> Result<Bytes, Memory> {
    let mut text = Bytes::from_slice(alloc, first)?;
    text.extend(more)?;
    text.push(b'!')?;
    Ok(text)
}

/// The same bytes in a text that is made of a vector.
fn given(alloc: Global, bytes: &[u8]) -> Result<Bytes, Memory> {
    let items = bytes.to_vec(alloc)?;
    Bytes::from_vec(alloc, items)
}

/// Texts of few bytes and of many, around the most that a text keeps in itself.
const LENGTHS: &[&[u8]] = &[
    b"",
    b"x",
    b"thirteen.....",
    b"fourteen......",
    b"fifteen........",
    b"a text of more than fifteen bytes",
];

/// Whether the text is read as these bytes, and so is its copy.
fn reads(alloc: Global, text: &Bytes, bytes: &[u8]) -> Result<bool, Memory> {
    let copied = text.copy(alloc)?.as_slice() == bytes;
    Ok(copied && text.as_slice() == bytes && text.is_empty() == bytes.is_empty())
}

/// Whether texts of these bytes, made of a slice and of a vector, are read back.
fn are_read_back(alloc: Global, bytes: &[u8]) -> Result<bool, Memory> {
    let made = reads(alloc, &Bytes::from_slice(alloc, bytes)?, bytes)?;
    Ok(made && reads(alloc, &given(alloc, bytes)?, bytes)?)
}

/// Whether a text with as many bytes once more and `!` has the length of all of them.
fn doubles(alloc: Global, bytes: &[u8]) -> Result<bool, Memory> {
    Ok(grown(alloc, bytes, bytes)?.len() == 2 * bytes.len() + 1)
}

#[test]
fn few_bytes_and_many_are_read_back_and_copied(rt: HostRuntime) {
    for bytes in LENGTHS {
        assert!(rt; matches!(are_read_back(rt.alloc(), bytes), Ok(true)));
        assert!(rt; matches!(doubles(rt.alloc(), bytes), Ok(true)));
    }
}

/// Bytes, further bytes, and both with `!` behind them.
const GROWING: &[(&[u8], &[u8], &[u8])] = &[
    (b"", b"", b"!"),
    (b"", b" A", b" A!"),
    (b"class", b"\xff\0", b"class\xff\0!"),
    (b"fifteen bytes..", b" A", b"fifteen bytes.. A!"),
];

/// Whether the text that has grown is the wanted one.
fn grows(alloc: Global, first: &[u8], more: &[u8], want: &[u8]) -> Result<bool, Memory> {
    let text = grown(alloc, first, more)?;
    Ok(text.as_slice() == want && text.len() == want.len() && !text.is_empty())
}

#[test]
fn bytes_grow_at_their_end(rt: HostRuntime) {
    for (first, more, want) in GROWING {
        assert!(rt; matches!(grows(rt.alloc(), first, more, want), Ok(true)));
    }
    assert!(rt; Bytes::new(rt.alloc()).is_empty());
}

/// Places around the most bytes that a text keeps in itself, in the order of their bytes.
const RISING: &[&[u8]] = &[
    b"",
    b"\0",
    b"a",
    b"aaaaaaaaaaaaaa",
    b"aaaaaaaaaaaaaaa",
    b"ab",
    b"b",
    b"b, and more bytes than fit in the value",
    b"\xff",
];

/// Whether both texts compare as their places do.
fn compare(one: &Bytes, other: &Bytes, at: usize, place: usize) -> bool {
    let order = at.cmp(&place);
    one.cmp(other) == order
        && one.partial_cmp(other) == Some(order)
        && (*one == *other) == (at == place)
}

/// Whether the text at this place compares with each as its place does.
fn is_ordered(alloc: Global, at: usize, bytes: &[u8]) -> Result<bool, Memory> {
    let one = Bytes::from_slice(alloc, bytes)?;
    let mut place = 0;
    for other in RISING {
        if !compare(&one, &given(alloc, other)?, at, place) {
            return Ok(false);
        }
        place = place.wrapping_add(1);
    }
    Ok(true)
}

#[test]
fn texts_are_ordered_by_their_bytes(rt: HostRuntime) {
    for at in 0..RISING.len() {
        assert!(rt; matches!(is_ordered(rt.alloc(), at, RISING[at]), Ok(true)));
    }
}

#[test]
fn want_of_memory_has_a_text(rt: HostRuntime) -> Result<(), Fail> {
    let text = format!(in rt.alloc(); "{Memory}")?;
    assert!(rt; text.as_str() == "out of memory");
    Ok(())
}
