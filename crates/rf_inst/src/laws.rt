ghost use Rattle.std.specs.Prelude.{◌≡◌, ℕ, List, Option, length};
ghost use Rattle.rf_form.specs.Constraints.{SomeFalse};
ghost use Rattle.rf_form.specs.Families.{Family, Part, Filled};
ghost use Rattle.rf_form.specs.Need.{Canon, HasCanon};
ghost use Rattle.rf_form.specs.Problems.{Fits};
ghost use Rattle.rf_inst.specs.declared.instances.Inst.{Inst};
ghost use Rattle.rf_rtree.specs.declared.checked.Checked.{Checked};
ghost use Rattle.rf_facts.specs.declared.properties.PropTable.{PropTable};
ghost use Rattle.rf_inst.specs.Insts.{formulas, problem};
ghost use Rattle.rf_inst.specs.Instances.{IsInstance};
ghost use Rattle.rf_inst.specs.Programs.{all_forms};
ghost use Rattle.rf_inst.specs.Stands.{first};

/// The canonical search of an instance has an answer and a need, from every family of places on.
pub fn each_instance_has_a_need()
    ensures { (i : Inst) (δ : Family) → Fits (problem i.vals i.cons) δ
        → HasCanon (problem i.vals i.cons) δ }
{}

/// The answer and the need of an instance are one alone.
pub fn an_instance_has_one_need()
    ensures { (i : Inst) (δ : Family) (o p : Option (List ℕ)) (n m : ℕ) →
        Canon (problem i.vals i.cons) δ o n → Canon (problem i.vals i.cons) δ p m
        → (o ≡ p) × (n ≡ m) }
{}

/// In a part of the first domains in which none is empty, a constraint is false exactly where the direct form of a pair is:
/// it doesn't matter which pairs were left out.
pub fn constraints_are_false_as_the_pairs()
    ensures { (facts : List (List (List ℕ))) (table : PropTable) (programs : List Checked)
        (i : Inst) (part : Family) → IsInstance facts table programs i →
        Part part (first i.vals) → Filled (length i.vals) part →
        (SomeFalse i.vals (all_forms facts table programs) part →
        SomeFalse i.vals (formulas i.cons) part) ×
        (SomeFalse i.vals (formulas i.cons) part →
        SomeFalse i.vals (all_forms facts table programs) part) }
{}
