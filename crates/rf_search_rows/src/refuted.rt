//! Whether nodes refute a family, as a plain walk over the families that are still to be refuted.

use crate::plain::{Plain, at, bit, has, is_false, size};
use rf_refute::Node;
use rf_text::{List, Memory};
use std::alloc::Global;

fn is_false_numbered(constraints: &[Plain], number: u64, family: u32) -> bool {
    match usize::try_from(number) {
        Err(_) => false,
        Ok(place) => match constraints.get(place) {
            None => false,
            Some(constraint) => is_false(*constraint, family),
        },
    }
}

/// Exactly the alive places, in order.
fn are_places(family: u32, x: u32, listed: &[u16]) -> bool {
    let mut from = 0;
    for v in listed {
        let v = *v as u32;
        if v < from || !has(family, x, v) {
            return false;
        }
        from = v + 1;
    }
    listed.len() == size(family, x)
}

/// Puts the families of the node's children in place of that family; false where the node doesn't
/// fit.
fn take(
    constraints: &[Plain],
    family: u32,
    node: &Node,
    todo: &mut List<u32>,
) -> Result<bool, Memory> {
    match node {
        Node::Fail { c } => Ok(is_false_numbered(constraints, *c, family)),
        Node::Remove { x, v, c } => {
            let (x, v) = (*x, *v as u32);
            todo.push(family & !bit(x, v))?;
            Ok(has(family, x, v) && is_false_numbered(constraints, *c, at(family, x, v)))
        }
        Node::Split { x, vals } => {
            for v in [2, 1, 0] {
                if has(family, *x, v) {
                    todo.push(at(family, *x, v))?;
                }
            }
            Ok(size(family, *x) > 1 && are_places(family, *x, vals.as_slice()))
        }
    }
}

pub(crate) fn is_good(
    alloc: Global,
    constraints: &[Plain],
    family: u32,
    nodes: &[Node],
) -> Result<bool, Memory> {
    let mut todo = List::new(alloc);
    todo.push(family)?;
    for node in nodes {
        match todo.pop() {
            None => return Ok(false),
            Some(top) => {
                if !take(constraints, top, node, &mut todo)? {
                    return Ok(false);
                }
            }
        }
    }
    Ok(todo.is_empty())
}
