//! The law on the trees of files: bytes have one at most.
#![tactic(auto)]

ghost use Rattle.std.specs.Prelude.{◌≡◌};
ghost use Rattle.rf_jtree.specs.DeclTrees.{UnitTree};
ghost use Rattle.rf_jtree.specs.FileTree.{IsFileTree};

use rf_jdecl::files_have_one_tree;
use rf_jlex::token_lists_are_unique;

/// Bytes are those of one tree at most, however deep it is.
pub fn bytes_have_one_tree(bytes: &[u8])
    ensures { (one other : UnitTree)
        → IsFileTree bytes.now one → IsFileTree bytes.now other → one ≡ other }
{
    token_lists_are_unique(bytes);
    files_have_one_tree();
}
