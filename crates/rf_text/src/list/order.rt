//! The items of a list in another order.
ghost use Rattle.std.specs.Prelude.{◌≡◌, reverse as reversed, OnOk, OnErr};
ghost use Rattle.std.specs.List.Sorted.{IsPermutation, IsSorted, IsStable};

use crate::{List, Memory};

impl<T> List<T> {
    pub fn reverse(&mut self)
        ensures { self.new ≡ reversed self.old }
    {
        self.items.reverse();
    }
}

impl<T: Ord> List<T> {
    /// Equal items keep their order. From 21 items on it takes memory, and where there is none the list stays as it was.
    pub fn sort(&mut self) -> Result<(), Memory>
        ensures permutation { OnOk result (IsPermutation self.old self.new) }
        ensures sorted { OnOk result (IsSorted T.cmp self.new) }
        ensures stable { OnOk result (IsStable T.cmp self.old self.new) }
        ensures err { OnErr result (self.new ≡ self.old) }
    {
        self.items.sort()?;
        Ok(())
    }

    /// Takes no memory. Items that compare as equal stand in any order.
    pub fn sort_unstable(&mut self)
        ensures permutation { IsPermutation self.old self.new }
        ensures sorted { IsSorted T.cmp self.new }
    {
        self.items.sort_unstable();
    }
}
