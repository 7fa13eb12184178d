//! Bodies of rules with places for variables and numbers for words, as they are looked at tuple by tuple.
#![tactic(auto)]

mod bodies;
mod gathered;
mod joined;
mod lower;
mod operands;
mod words;

pub use bodies::{Body, Many, Operand};
pub use gathered::{Gathered, add, finished};
pub use joined::{both_of, either_of, is_false, is_true, negated};
pub use lower::lower_form;
