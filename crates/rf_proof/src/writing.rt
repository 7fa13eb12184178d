ghost use Rattle.std.specs.Prelude.{◌≡◌, ◌++◌, flat_map, map, IfOk, OnOk};
ghost use Rattle.rf_refute.specs.Shown.{shown};
ghost use Rattle.rf_refute.specs.Trees as trees;
ghost use Rattle.rf_proof.specs.Texts.{line_of, lines_of, spaced, text_of};

use crate::versions::VERSION_1;
use itoa::Buffer;
use rf_refute::{Node, Tree};
use rf_text::{Bytes, Memory};
use std::alloc::Global;

fn put_number(out: &mut Bytes, number: u64) -> Result<(), Memory>
    ensures { OnOk result (out.new ≡ out.old ++ spaced number) }
{
    let mut buffer = Buffer::new();
    out.push(b' ')?;
    out.extend(buffer.format(number).as_bytes())
}

fn put_values(out: &mut Bytes, vals: &[u16]) -> Result<(), Memory>
    ensures { OnOk result (out.new ≡ out.old ++ flat_map spaced vals.now) }
{
    for v in vals {
        put_number(out, *v as u64)?;
    }
    Ok(())
}

fn put_remove(out: &mut Bytes, x: u32, v: u16, c: u64) -> Result<(), Memory>
    ensures { OnOk result (out.new ≡ out.old ++ line_of (trees.Remove x v c)) }
{
    out.extend(b"remove")?;
    put_number(out, x as u64)?;
    put_number(out, v as u64)?;
    put_number(out, c)?;
    out.push(b'\n')
}

fn put_split(out: &mut Bytes, x: u32, vals: &[u16]) -> Result<(), Memory>
    ensures { OnOk result (out.new ≡ out.old ++ line_of (trees.Split x vals.now)) }
{
    out.extend(b"split")?;
    put_number(out, x as u64)?;
    put_values(out, vals)?;
    out.push(b'\n')
}

fn put_fail(out: &mut Bytes, c: u64) -> Result<(), Memory>
    ensures { OnOk result (out.new ≡ out.old ++ line_of (trees.Fail c)) }
{
    out.extend(b"fail")?;
    put_number(out, c)?;
    out.push(b'\n')
}

fn put_node(out: &mut Bytes, node: &Node) -> Result<(), Memory>
    ensures { OnOk result (out.new ≡ out.old ++ line_of (shown node.now)) }
{
    match node {
        Node::Remove { x, v, c } => put_remove(out, *x, *v, *c),
        Node::Split { x, vals } => put_split(out, *x, vals.as_slice()),
        Node::Fail { c } => put_fail(out, *c),
    }
}

fn put_nodes(out: &mut Bytes, nodes: &[Node]) -> Result<(), Memory>
    ensures { OnOk result (out.new ≡ out.old ++ lines_of (map shown nodes.now)) }
{
    for node in nodes {
        put_node(out, node)?;
    }
    Ok(())
}

/// The text of a refutation, and as well of any other nodes.
pub fn write(alloc: Global, tree: &Tree) -> Result<Bytes, Memory>
    ensures { IfOk result (λ text. text ≡ text_of (map shown tree.now.nodes)) }
{
    let mut out = Bytes::from_slice(alloc, VERSION_1)?;
    put_nodes(&mut out, tree.nodes.as_slice())?;
    Ok(out)
}
