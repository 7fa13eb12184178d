ghost use Rattle.std.specs.Prelude.{◌≡◌, ◌++◌, ◌<◌, ◌^◌, ℕ, List, codes, flat_map, IfOk, MatchOption};
ghost use Rattle.rf_refute.specs.Shown.{shown};
ghost use Rattle.rf_refute.specs.Trees as trees;
ghost use Rattle.rf_proof.specs.Lines.{BeginsNode, BeginsNoNode, BeginsPlaces};
ghost use Rattle.rf_proof.specs.Numbers.{BeginsField, EndsNumber};
ghost use Rattle.rf_proof.specs.Texts.{HasLine, line_end, spaced};
ghost use Rattle.rf_proof.specs.Trees as spec;

use crate::numbers::field;
use crate::words::after;
use rf_refute::Node;
use rf_text::Memory;
use smallvec::SmallVec;
use std::alloc::Global;

/// How many children the node has.
pub fn children(node: &Node) -> usize
    ensures { result ≡ spec.children (shown node.now) }
{
    match node {
        Node::Remove { x: _, v: _, c: _ } => 1,
        Node::Split { x: _, vals } => vals.as_slice().len(),
        Node::Fail { c: _ } => 0,
    }
}

/// The number of a constraint at the end of the line, and what is behind the line.
fn last_field(text: &[u8]) -> Option<(u64, &[u8])>
    ensures { MatchOption result
        ((c : ℕ) (rest : List ℕ) → c < 2 ^ 64 → text.now ≡ spaced c ++ (line_end ++ rest) → ⊥)
        (λ found. text.now ≡ spaced found.0 ++ (line_end ++ found.1.now)) }
{
    let (c, rest) = field(text, u64::MAX)?;
    let rest = after(rest, b"\n")?;
    Some((c, rest))
}

/// The places one behind the other as long as they go on, and what is behind them.
#[tactic(auto, using(crate::proofs::Behind::places_none, crate::proofs::Behind::places_more, crate::proofs::Behind::places_all, crate::proofs::Behind::field_shorter))]
fn places(alloc: Global, text: &[u8]) -> Result<(SmallVec<u16, 4>, &[u8]), Memory>
    requires { EndsNumber text.now }
    ensures { IfOk result (λ found. BeginsPlaces text.now found.0.items found.1.now) }
{
    let mut vals = SmallVec::new(alloc);
    let mut left = text;
    while let Some((v, rest)) = field(left, u16::MAX as u64) {
        vals.push(v as u16)?;
        left = rest;
    }
    Ok((vals, left))
}

/// The node behind the word `remove`.
fn remove(text: &[u8]) -> Option<(Node, &[u8])>
    ensures { MatchOption result
        ((x v c : ℕ) (rest : List ℕ) → HasLine (trees.Remove x v c) →
        text.now ≡ spaced x ++ (spaced v ++ (spaced c ++ (line_end ++ rest))) → ⊥)
        (λ found. BeginsNode (codes "remove" ++ text.now) (shown found.0) found.1.now) }
{
    let (x, rest) = field(text, u32::MAX as u64)?;
    let (v, rest) = field(rest, u16::MAX as u64)?;
    let (c, rest) = last_field(rest)?;
    let node = Node::Remove {
        x: x as u32,
        v: v as u16,
        c,
    };
    Some((node, rest))
}

/// The node behind the word `split`.
#[tactic(auto, using(crate::proofs::Behind::no_split_x, crate::proofs::Behind::no_split_places, crate::proofs::Behind::no_split_end, crate::proofs::Behind::split_is))]
fn split(alloc: Global, text: &[u8]) -> Result<Option<(Node, &[u8])>, Memory>
    ensures { IfOk result (λ read. MatchOption read
        ((x : ℕ) (vs : List ℕ) (rest : List ℕ) → HasLine (trees.Split x vs) →
        text.now ≡ spaced x ++ (flat_map spaced vs ++ (line_end ++ rest)) → ⊥)
        (λ found. BeginsNode (codes "split" ++ text.now) (shown found.0) found.1.now)) }
{
    let Some((x, rest)) = field(text, u32::MAX as u64) else {
        return Ok(None);
    };
    let (vals, rest) = places(alloc, rest)?;
    if vals.as_slice().is_empty() {
        return Ok(None);
    }
    let Some(rest) = after(rest, b"\n") else {
        return Ok(None);
    };
    let node = Node::Split { x: x as u32, vals };
    Ok(Some((node, rest)))
}

/// The node behind the word `fail`.
fn fail(text: &[u8]) -> Option<(Node, &[u8])>
    ensures { MatchOption result
        ((c : ℕ) (rest : List ℕ) → c < 2 ^ 64 → text.now ≡ spaced c ++ (line_end ++ rest) → ⊥)
        (λ found. BeginsNode (codes "fail" ++ text.now) (shown found.0) found.1.now) }
{
    let (c, rest) = last_field(text)?;
    Some((Node::Fail { c }, rest))
}

/// The node whose line the text begins with, and what is behind the line.
#[tactic(auto, using(crate::proofs::Behind::told_remove, crate::proofs::Behind::told_split, crate::proofs::Behind::told_fail, crate::proofs::Behind::no_word))]
pub fn first_node(alloc: Global, text: &[u8]) -> Result<Option<(Node, &[u8])>, Memory>
    ensures { IfOk result (λ read. MatchOption read
        (BeginsNoNode text.now)
        (λ found. BeginsNode text.now (shown found.0) found.1.now)) }
{
    if let Some(rest) = after(text, b"remove") {
        return Ok(remove(rest));
    }
    if let Some(rest) = after(text, b"split") {
        return split(alloc, rest);
    }
    match after(text, b"fail") {
        None => Ok(None),
        Some(rest) => Ok(fail(rest)),
    }
}
