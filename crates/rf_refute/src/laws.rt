ghost use Rattle.std.specs.Prelude.{◌≡◌, ℕ, List};
ghost use Rattle.rf_form.specs.Families.{Family};
ghost use Rattle.rf_form.specs.Problems.{Fits};
ghost use Rattle.rf_cons.specs.Systems.{System, problem};
ghost use Rattle.rf_refute.specs.Trees.{Node};
ghost use Rattle.rf_refute.specs.Good.{Good, Refute, FirstBad, HasNone};

/// Where a refutation is good, no choice of alive places makes all constraints true.
pub fn good_refutes()
    ensures { (s : System) (domains : Family) (nodes : List Node) → Fits (problem s) domains →
        Good s domains nodes → HasNone s domains }
{}

/// A good refutation has no bad node.
pub fn good_has_no_bad_node()
    ensures { (s : System) (families : List Family) (nodes : List Node) (k : ℕ) →
        Refute s families nodes → FirstBad s families nodes k → ⊥ }
{}

/// There is one first bad node alone.
pub fn first_bad_is_one()
    ensures { (s : System) (families : List Family) (nodes : List Node) (k j : ℕ) →
        FirstBad s families nodes k → FirstBad s families nodes j → k ≡ j }
{}
