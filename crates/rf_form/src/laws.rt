ghost use Rattle.std.specs.Prelude.{◌≡◌, ℕ, Bool, true, false, List, Option, slice_index_or};
ghost use Rattle.rf_form.specs.Constraints.{problem_of};
ghost use Rattle.rf_form.specs.Families.{Family, Part, Filled, Within};
ghost use Rattle.rf_form.specs.Formulas.{Formula};
ghost use Rattle.rf_form.specs.Mentions.{AreSingle, AgreeOn};
ghost use Rattle.rf_form.specs.Need.{Canon, HasCanon};
ghost use Rattle.rf_form.specs.Problems.{Fits};
ghost use Rattle.rf_form.specs.Truths.{row, truth, Is};

/// The canonical search of a list of formulas has an answer and a need, from every family of places on.
pub fn each_family_has_a_need()
    ensures { (vals : List (List ℕ)) (fs : List Formula) (δ : Family)
        → Fits (problem_of vals fs) δ →
        HasCanon (problem_of vals fs) δ }
{}

/// The answer and the need are one alone.
pub fn need_is_one()
    ensures { (vals : List (List ℕ)) (fs : List Formula) (δ : Family)
        (o p : Option (List ℕ)) (n m : ℕ) →
        Canon (problem_of vals fs) δ o n → Canon (problem_of vals fs) δ p m → (o ≡ p) × (n ≡ m) }
{}

/// What a formula is under domains it is under each part in which no domain is empty.
pub fn stays_in_parts()
    ensures { (n : ℕ) (places : ℕ → ℕ) (vals : List (List ℕ)) (part whole : Family)
        (f : Formula) (b : Bool) →
        Part part whole → Filled n part → Within n places whole
        → Is vals whole f b → Is vals part f b }
{}

/// No formula is both true and false.
pub fn never_both()
    ensures { (vals : List (List ℕ)) (domains : Family) (f : Formula) →
        Is vals domains f true → Is vals domains f false → ⊥ }
{}

/// Where all variables of a formula are single, it is what plain truth says of their values.
pub fn single_domains_tell()
    ensures { (vals : List (List ℕ)) (domains : Family) (place : ℕ → ℕ) (f : Formula) →
        AreSingle domains place f →
        Is vals domains f (truth (λ x. slice_index_or (row vals x) (place x) 0) f) }
{}

/// A formula looks at the domains of its own variables alone.
pub fn looks_at_its_variables()
    ensures { (vals : List (List ℕ)) (one other : Family) (f : Formula) (b : Bool) →
        AgreeOn f one other → Is vals one f b → Is vals other f b }
{}
