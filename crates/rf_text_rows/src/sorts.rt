//! Sorting: few items and more than twenty, texts, and items that compare as equal.

use rf_text::{Bytes, List, Memory};
use std::alloc::Global;

/// A number with its place before sorting, which no comparison looks at.
#[derive(Clone, Copy)]
#[derive_where(PartialEq, Eq, PartialOrd, Ord)]
struct Placed {
    number: u32,
    #[derive_where(skip(EqHashOrd))]
    place: u32,
}

/// So many items whose numbers are 0, 1 and 2 in turn.
fn in_turn(alloc: Global, count: u32) -> Result<List<Placed>, Memory> {
    let mut list = List::with_capacity(alloc, count as usize)?;
    for place in 0..count {
        list.push(Placed {
            number: place % 3,
            place,
        })?;
    }
    Ok(list)
}

/// Whether each item comes before the next, by number and then by place.
fn rises(list: &List<Placed>) -> bool {
    let mut last = (0, 0);
    for item in list.iter() {
        let found = (item.number, item.place);
        if found < last {
            return false;
        }
        last = found;
    }
    true
}

/// Whether no number is followed by a lesser one.
fn falls_nowhere(list: &List<Placed>) -> bool {
    let mut last = 0;
    for item in list.iter() {
        if item.number < last {
            return false;
        }
        last = item.number;
    }
    true
}

/// How many items are sorted: none, few, and around the twenty from which another way is taken.
const COUNTS: &[u32] = &[0, 1, 2, 20, 21, 100];

/// Whether so many items rise by number, and then by their place before.
fn sorts(alloc: Global, count: u32) -> Result<bool, Memory> {
    let mut list = in_turn(alloc, count)?;
    list.sort()?;
    Ok(list.len() == count as usize && rises(&list))
}

/// Whether so many items rise by number where they are sorted in place.
fn sorts_in_place(alloc: Global, count: u32) -> Result<bool, Memory> {
    let mut list = in_turn(alloc, count)?;
    list.sort_unstable();
    Ok(list.len() == count as usize && falls_nowhere(&list))
}

#[test]
fn equal_items_keep_their_order(rt: HostRuntime) {
    for count in COUNTS {
        assert!(rt; matches!(sorts(rt.alloc(), *count), Ok(true)));
    }
}

#[test]
fn items_are_sorted_in_place(rt: HostRuntime) {
    for count in COUNTS {
        assert!(rt; matches!(sorts_in_place(rt.alloc(), *count), Ok(true)));
    }
}

const GIVEN: &[&[u8]] = &[b"b", b"a text of many bytes", b"", b"ab"];

const SORTED: &[&[u8]] = &[b"", b"a text of many bytes", b"ab", b"b"];

fn texts(alloc: Global, given: &[&[u8]]) -> Result<List<Bytes>, Memory> {
    let mut texts = List::new(alloc);
    for text in given {
        texts.push(Bytes::from_slice(alloc, text)?)?;
    }
    Ok(texts)
}

/// Whether the list has these texts in this order.
fn are(texts: &[Bytes], want: &[&[u8]]) -> bool {
    let mut rest = want;
    for text in texts {
        match rest {
            [first, others @ ..] if text.as_slice() == *first => rest = others,
            _ => return false,
        }
    }
    rest.is_empty()
}

fn sorts_texts(alloc: Global) -> Result<bool, Memory> {
    let mut texts = texts(alloc, GIVEN)?;
    texts.sort_unstable();
    Ok(are(texts.as_slice(), SORTED))
}

#[test]
fn texts_are_sorted_by_their_bytes(rt: HostRuntime) {
    assert!(rt; matches!(sorts_texts(rt.alloc()), Ok(true)));
}
