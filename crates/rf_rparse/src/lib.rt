//! The reader of the rule language: a machine that takes one token at a time, with what waits in a list.
#![tactic(auto)]

mod args;
mod atoms;
mod course;
mod forms;
mod frames;
mod heads;
mod laws;
mod next;
mod parts;
mod programs;
mod reader;
mod words;

pub use laws::programs_are_unique;
pub use reader::{RuleErr, parse_rules};
