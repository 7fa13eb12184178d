ghost use Rattle.std.specs.Prelude.{◌≡◌};
ghost use Rattle.rf_jtree.specs.StmtFits.{BlockFits};
ghost use Rattle.rf_jtree.specs.StmtTrees.{BlockTree, block_yield};

/// No two blocks that fit have the same tokens.
pub fn blocks_have_one_tree()
    ensures { (one other : BlockTree) → BlockFits one → BlockFits other → block_yield one ≡
        block_yield other → one ≡ other }
{}
