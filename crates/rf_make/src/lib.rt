//! Formulas of rules at tuples: what terms stand for, found by an index, and what is said of them.
#![tactic(auto)]

mod atoms;
mod booleans;
mod indexes;
mod kept;
mod laws;
mod makers;
mod meanings;
mod values;
mod walks;

pub use atoms::{atom, is_one};
pub use booleans::boolean;
pub use indexes::{Entry, Index, index_of};
pub use laws::what_is_decided_stays;
pub use makers::Maker;
pub use meanings::Meaning;
pub use values::{number_at, slot_of, value_of};
pub use walks::make;
