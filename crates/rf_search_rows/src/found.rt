//! What the search answers, where the domains are those that it takes.

use rf_form::Doms;
use rf_prop::are_filled;
use rf_refute::{Checker, Node, Tree, Verdict};
use rf_search::{Found, solve};
use rf_solver_rows::Listed;
use rf_text::Memory;
use rf_trail::Trail;
use std::alloc::Global;

/// The answer; none where the domains aren't those of the constraints.
pub(crate) fn found(
    alloc: Global,
    all: &Listed,
    doms: &Doms,
    budget: u64,
) -> Result<Option<Found>, Memory> {
    if !doms.fits(&all.vals) {
        return Ok(None);
    }
    if !Trail::<1>::takes(doms) {
        return Ok(None);
    }
    if !are_filled(doms, all.vals.len()) {
        return Ok(None);
    }
    Ok(Some(solve(alloc, all, doms, budget)?))
}

/// Whether the checker accepts the tree.
pub(crate) fn is_accepted(
    alloc: Global,
    all: &Listed,
    doms: &Doms,
    tree: &Tree,
) -> Result<bool, Memory> {
    if !doms.fits(&all.vals) {
        return Ok(false);
    }
    if !Trail::<1>::takes(doms) {
        return Ok(false);
    }
    let mut checker = Checker::new(alloc, all, doms)?;
    Ok(matches!(checker.check(all, tree), Verdict::Good))
}

/// How many children of splits there are, the first of each split left out.
pub(crate) fn counted(nodes: &[Node]) -> u64 {
    let mut count: u64 = 0;
    for node in nodes {
        match node {
            Node::Remove { x: _, v: _, c: _ } => {}
            Node::Split { x: _, vals } => {
                count = count
                    .saturating_add(vals.as_slice().len() as u64)
                    .saturating_sub(1);
            }
            Node::Fail { c: _ } => {}
        }
    }
    count
}
