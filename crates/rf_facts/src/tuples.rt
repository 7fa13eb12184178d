ghost use Rattle.std.specs.Prelude.{◌≡◌, ◌≤◌, ◌∷◌, [], length};

use std::marker::Model;

/// The most numbers that a tuple has.
pub const MOST: usize = 8;

/// A tuple by value, of at most eight numbers.
#[derive(Drop)]
pub struct Tuple {
    numbers: [u32; 8],
    len: u8,
}

impl Model for Tuple {
    ghost use Rattle.std.specs.Prelude.{ℕ, List, ◌≤◌, take};

    ghost Value = { List ℕ };

    ghost view = { λ tuple. take tuple.len tuple.numbers };

    ghost invariant = { λ tuple. tuple.len ≤ 8 };
}

impl Tuple {
    pub fn of(numbers: &[u32]) -> Tuple
        requires { length numbers.now ≤ 8 }
        ensures { result ≡ numbers.now }
    {
        let mut places = [0; 8];
        places[..numbers.len()].copy_from_slice(numbers);
        Tuple {
            numbers: places,
            len: numbers.len() as u8,
        }
    }

    pub fn pair(first: u32, second: u32) -> Tuple
        ensures { result ≡ first ∷ second ∷ [] }
    {
        Tuple::of(&[first, second])
    }

    pub fn as_slice(&self) -> &[u32]
        ensures { result.now ≡ self.now }
    {
        &self.numbers[..self.len as usize]
    }
}
