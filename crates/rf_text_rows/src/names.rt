//! Names: texts with one place each, and places in their order.

use rf_text::{Memory, NameId, Names};
use std::alloc::Global;

/// Texts, each with the place that it gets.
const CASES: &[(&[u8], u32)] = &[(b"f", 0), (b"", 1), (b"f", 0), (b"F", 2), (b"ff", 3)];

/// Interns the texts, and says whether each gets its place.
fn interns(alloc: Global, names: &mut Names, cases: &[(&[u8], u32)]) -> bool {
    for (text, place) in cases {
        if names.len() >= 10 {
            return false;
        }
        match names.intern(alloc, text) {
            Ok(found) => {
                if found.0 != *place {
                    return false;
                }
            }
            Err(_) => return false,
        }
    }
    true
}

/// Whether each text stands at its place and is found there.
fn stand(names: &Names, cases: &[(&[u8], u32)]) -> bool {
    for (text, place) in cases {
        if (*place as usize) >= names.len()
            || names.find(text) != Some(NameId(*place))
            || names.text(NameId(*place)) != *text
        {
            return false;
        }
    }
    true
}

/// Whether a copy keeps its texts where the names grow.
fn copies(alloc: Global, names: &mut Names) -> Result<bool, Memory> {
    let copied = names.copy(alloc)?;
    let more = interns(alloc, names, &[(b"g", 4)]);
    Ok(more && stand(&copied, CASES) && copied.find(b"g").is_none() && copied.len() == 4)
}

fn gives_places(alloc: Global) -> Result<bool, Memory> {
    let mut names = Names::new(alloc);
    if !interns(alloc, &mut names, CASES) {
        return Ok(false);
    }
    copies(alloc, &mut names)
}

#[test]
fn each_text_has_one_place(rt: HostRuntime) {
    assert!(rt; matches!(gives_places(rt.alloc()), Ok(true)));
}

#[test]
fn places_are_ordered(rt: HostRuntime) {
    assert!(rt; NameId(2) < NameId(10));
    assert!(rt; NameId(3) > NameId(1));
}
