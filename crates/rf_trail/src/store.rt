ghost use Rattle.std.specs.Prelude.{◌≡◌, ◌≤◌, ◌∷◌, ◌++◌, [], ℕ, true, List, length, take};
ghost use Rattle.rf_form.specs.Families.{Family};
ghost use Rattle.rf_trail.specs.Removals.{left};

use rf_form::Alive;

/// A number of removals, to go back to.
#[derive(Clone, Copy, Debug)]
pub struct Mark {
    pub at: u64,
}

/// Domains from which places are removed, and which go back to a mark: the first domains, and a list of removals.
pub trait Store: Alive {
    ghost first: { Self → Family };

    ghost removed: { Self → List (ℕ × ℕ) };

    /// Removes one place.
    fn remove(&mut self, x: u32, v: u16)
        requires { Self.family self.old x v ≡ true }
        ensures first { first self.new ≡ first self.old }
        ensures removed { removed self.new ≡ removed self.old ++ (x, v) ∷ [] };

    /// How many removals there are.
    fn mark(&self) -> Mark
        ensures { result.at ≡ length (removed self.now) };

    /// Takes back the removals behind the mark.
    fn back(&mut self, mark: Mark)
        requires { mark.at ≤ length (removed self.old) }
        ensures first { first self.new ≡ first self.old }
        ensures removed { removed self.new ≡ take mark.at (removed self.old) };

    ghost left_is: { (s : Self) → Self.family s ≡ left (first s) (removed s) };
}
