ghost use Rattle.std.specs.Prelude.{◌≡◌, true, List as Items, ◌++◌};
ghost use Rattle.rf_form.specs.Formulas.{Formula};
ghost use Rattle.rf_form.specs.Shown.{listed};
ghost use Rattle.rf_bodies.specs.Alike.{Alike};
ghost use Rattle.rf_bodies.specs.declared.gathered.Gathered.{Gathered};
ghost use Rattle.rf_bodies.specs.Gathered.{so_far, whole};

/// Where what was gathered is decided, no formula that comes behind changes it: a quantifier may be left there.
pub fn what_is_decided_stays()
    ensures { (gathered : Gathered) (gs more : Items Formula) → gathered.decided ≡ true →
        Alike (so_far gathered) (whole gathered.all (listed gs)) →
        Alike (so_far gathered) (whole gathered.all (listed (gs ++ more))) }
{}
