//! Lists: changed at a place and at their end, walked and turned around.

use rf_text::{List, Memory};
use std::alloc::Global;

fn push_all(list: &mut List<u32>, items: &[u32]) -> Result<(), Memory> {
    for item in items {
        list.push(*item)?;
    }
    Ok(())
}

/// Takes the last of 1 to 5, puts 7 in the second place, and leaves three.
fn shortens(list: &mut List<u32>) -> bool {
    let five = list.as_slice() == [1, 2, 3, 4, 5].as_slice();
    let last = list.pop();
    let four = list.len();
    if four != 4 {
        return false;
    }
    list.set(1, 7);
    list.truncate(3);
    let second = list.get(1).copied();
    five && last == Some(5) && second == Some(7) && list.get(3).is_none()
}

/// A list is empty, is given 1 to 5 and is shortened.
fn grows_and_shortens(alloc: Global) -> Result<bool, Memory> {
    let mut list = List::new(alloc);
    let empty = list.is_empty();
    push_all(&mut list, &[1, 2, 3])?;
    list.append(List::from_vec([4, 5].to_vec(alloc)?))?;
    let shortens = shortens(&mut list);
    let items = list.into_vec();
    Ok(empty && shortens && items.as_slice() == [1, 7, 3].as_slice())
}

#[test]
fn lists_change_at_a_place_and_at_their_end(rt: HostRuntime) {
    assert!(rt; matches!(grows_and_shortens(rt.alloc()), Ok(true)));
}

#[test]
fn a_list_of_nothing_has_no_last_item(rt: HostRuntime) {
    assert!(rt; List::<u32>::new(rt.alloc()).pop().is_none());
}

/// Adds 40 to the second of 1, 2 and 3.
fn lends(list: &mut List<u32>) -> bool {
    if let Some(item) = list.get_mut(1) {
        *item = item.wrapping_add(40);
    }
    list.get_mut(3).is_none() && list.as_slice() == [1, 42, 3].as_slice()
}

fn lends_from_a_list(alloc: Global) -> Result<bool, Memory> {
    let mut list = List::from_vec([1u32, 2, 3].to_vec(alloc)?);
    Ok(lends(&mut list))
}

#[test]
fn an_item_is_lent(rt: HostRuntime) {
    assert!(rt; matches!(lends_from_a_list(rt.alloc()), Ok(true)));
}

/// The items as digits from the first to the last, and again from the last to the first.
fn digits(list: &List<u32>) -> u64 {
    let mut digits = 0u64;
    for item in list.iter() {
        digits = digits.wrapping_mul(10).wrapping_add(*item as u64);
    }
    for item in list.iter().rev() {
        digits = digits.wrapping_mul(10).wrapping_add(*item as u64);
    }
    digits
}

fn is_walked_and_turned(alloc: Global) -> Result<bool, Memory> {
    let mut list = List::with_capacity(alloc, 3)?;
    let empty = list.is_empty();
    push_all(&mut list, &[4, 5, 6])?;
    let walked = digits(&list);
    list.reverse();
    Ok(empty && walked == 456654 && list.as_slice() == [6, 5, 4].as_slice())
}

#[test]
fn a_list_is_walked_from_both_ends(rt: HostRuntime) {
    assert!(rt; matches!(is_walked_and_turned(rt.alloc()), Ok(true)));
}
