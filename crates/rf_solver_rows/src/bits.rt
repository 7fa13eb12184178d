//! Sets of bits against the list of their places.

use rf_trail::BitDom;
use std::test::Fail;

/// The places below 128, each once.
fn set_of(places: &[u16]) -> BitDom<2> {
    let mut dom = BitDom::empty();
    for v in places {
        if *v < 128 {
            if !dom.has(*v) {
                dom.put(*v);
            }
        }
    }
    dom
}

/// The first place of the set from this one on, or 128 where there is none.
fn next(dom: &BitDom<2>, from: u16) -> u16 {
    match dom.next(from) {
        Some(place) => place,
        None => 128,
    }
}

/// Places, and the first of the set from each on.
const NEXT: &[(u16, u16)] = &[(0, 0), (1, 3), (4, 63), (64, 64), (65, 127), (128, 128)];

#[test]
fn places_are_counted_and_found_in_order_in_both_words(rt: HostRuntime) -> Result<(), Fail> {
    let dom = set_of(&[127, 3, 64, 0, 63, 3]);
    for (from, place) in NEXT {
        assert!(rt; next(&dom, *from) == *place);
    }
    assert!(rt; dom.size() == 5 && !dom.has(1) && !dom.has(128));
    Ok(())
}

#[test]
fn a_place_that_is_taken_is_gone_alone(rt: HostRuntime) -> Result<(), Fail> {
    let mut dom = set_of(&[64, 65, 1]);
    if dom.has(65) {
        dom.take(65);
    }
    assert!(rt; dom.size() == 2 && dom.has(64) && !dom.has(65) && dom.has(1));
    Ok(())
}
