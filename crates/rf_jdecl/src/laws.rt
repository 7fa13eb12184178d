ghost use Rattle.std.specs.Prelude.{◌≡◌};
ghost use Rattle.rf_jtree.specs.DeclFits.{UnitFits};
ghost use Rattle.rf_jtree.specs.DeclTrees.{UnitTree, unit_yield};

/// No two files that fit have the same tokens, however deep they are.
pub fn files_have_one_tree()
    ensures { (one other : UnitTree) → UnitFits one → UnitFits other → unit_yield one ≡ unit_yield
        other → one ≡ other }
{}
