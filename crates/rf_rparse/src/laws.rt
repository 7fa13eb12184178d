//! Laws of readings.
ghost use Rattle.std.specs.Prelude.{◌≡◌};
ghost use Rattle.rf_rtree.specs.declared.items.RuleProg.{RuleProg};
ghost use Rattle.rf_rparse.specs.Answers.{Reads};

/// A file reads to one program at most.
pub fn programs_are_unique(bytes: &[u8])
    ensures { (one other : RuleProg) → Reads bytes.now one → Reads bytes.now other → one ≡ other }
{}
