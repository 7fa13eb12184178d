//! The printer of the rule language: a program as its plain print, with parentheses only where the levels ask for them.
#![tactic(auto)]

mod forms;
mod levels;
mod lists;
mod programs;
mod terms;

pub use programs::print_rules;
