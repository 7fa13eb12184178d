ghost use Rattle.std.specs.Prelude.{◌≡◌, IsTrue};
ghost use Rattle.rf_jtree.specs.ExprFits.{ExprFits};
ghost use Rattle.rf_jtree.specs.ExprTrees.{ExprTree, expr_yield};
ghost use Rattle.rf_jexpr.specs.Reads.{begins};
ghost use Rattle.rf_jexpr.specs.Stops.{begins_expr};

/// No two expressions that fit have the same tokens.
pub fn expressions_have_one_tree()
    ensures { (one other : ExprTree) → ExprFits one → ExprFits other → expr_yield one ≡ expr_yield
        other → one ≡ other }
{}

/// An expression that fits begins with an identifier, a literal, `(`, `this`, `super`, `new` or a prefix operator.
pub fn expressions_begin_with()
    ensures { (expr : ExprTree) → ExprFits expr → IsTrue (begins begins_expr (expr_yield expr)) }
{}
