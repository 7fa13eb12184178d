//! The kind checker of the rule language: the first kind fault of a program in the order of its text, where it has one.
#![tactic(auto)]

mod asks;
mod checking;
mod compared;
mod faults;
mod forms;
mod kinds;
mod language;
mod programs;
mod scope;
mod terms;
mod told;

pub use checking::{KindErr, check};
pub use language::java_lang;
pub use told::first_fault;
