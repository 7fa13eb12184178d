//! A tree that leads back to itself through a list.

use rf_text::{Bytes, List, Memory};
use std::alloc::Global;

/// A tree that leads back to itself through a list.
#[derive(Drop)]
enum Tree {
    Leaf(Bytes),
    Node(Bytes, List<Tree>),
}

/// Puts the names of a tree at the end of `text`, those of the children in brackets behind their parent.
fn write(tree: &Tree, text: &mut Bytes) -> Result<(), Memory> {
    match tree {
        Tree::Leaf(name) => text.extend(name.as_slice()),
        Tree::Node(name, children) => {
            text.extend(name.as_slice())?;
            text.push(b'(')?;
            for child in children.as_slice() {
                write(child, text)?;
            }
            text.push(b')')
        }
    }
}

fn leaf(alloc: Global, name: &[u8]) -> Result<Tree, Memory> {
    Ok(Tree::Leaf(Bytes::from_slice(alloc, name)?))
}

fn node(alloc: Global, name: &[u8], children: List<Tree>) -> Result<Tree, Memory> {
    Ok(Tree::Node(Bytes::from_slice(alloc, name)?, children))
}

/// `a(bc)`
fn inner(alloc: Global) -> Result<Tree, Memory> {
    let mut children = List::new(alloc);
    children.push(leaf(alloc, b"b")?)?;
    children.push(leaf(alloc, b"c")?)?;
    node(alloc, b"a", children)
}

/// `(a(bc)de())`
fn outer(alloc: Global) -> Result<Tree, Memory> {
    let mut children = List::new(alloc);
    children.push(inner(alloc)?)?;
    children.push(leaf(alloc, b"d")?)?;
    children.push(node(alloc, b"e", List::new(alloc))?)?;
    node(alloc, b"", children)
}

fn is_written(alloc: Global) -> Result<bool, Memory> {
    let mut text = Bytes::new(alloc);
    write(&outer(alloc)?, &mut text)?;
    Ok(text.as_slice() == b"(a(bc)de())".as_slice())
}

#[test]
fn a_tree_of_lists_is_built_and_walked(rt: HostRuntime) {
    assert!(rt; matches!(is_written(rt.alloc()), Ok(true)));
}
