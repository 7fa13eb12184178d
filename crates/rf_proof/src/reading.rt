ghost use Rattle.std.specs.Prelude.{◌++◌};
ghost use Rattle.rf_proof.specs.Readings.{Reads};
ghost use Rattle.rf_proof.specs.Texts.{version_line};

use crate::errors::TextErr;
use crate::nodes::{children, first_node};
use crate::versions::behind_version_1;
use rf_refute::Tree;
use rf_text::{List, Memory};
use std::alloc::Global;

#[tactic(auto, using(crate::proofs::Loops::read_none, crate::proofs::Loops::wanted_fits, crate::proofs::Loops::nodes_few, crate::proofs::Loops::read_more, crate::proofs::Loops::line_shorter, crate::proofs::Loops::node_missing, crate::proofs::Loops::node_left_over, crate::proofs::Loops::whole_read))]
fn tree_behind(alloc: Global, text: &[u8]) -> Result<Tree, TextErr>
    ensures { Reads (version_line ++ text.now) result }
{
    let mut nodes = List::new(alloc);
    let mut left = text;
    let mut wanted: usize = 1;
    while wanted > 0 {
        match first_node(alloc, left)? {
            None => {
                return Err(TextErr::BadText {
                    line: nodes.len() as u64 + 2,
                });
            }
            Some((node, rest)) => {
                wanted = wanted - 1 + children(&node);
                nodes.push(node)?;
                left = rest;
            }
        }
    }
    if left.is_empty() {
        return Ok(Tree { nodes });
    }
    Err(TextErr::BadText {
        line: nodes.len() as u64 + 2,
    })
}

/// The refutation that the text is of, or the first line by which it is of none.
pub fn read(alloc: Global, text: &[u8]) -> Result<Tree, TextErr>
    ensures { Reads text.now result }
{
    match behind_version_1(text) {
        None => Err(TextErr::BadText { line: 1 }),
        Some(rest) => tree_behind(alloc, rest),
    }
}
