//! Rule files: the bytes of one, checked and printed, or the line that says what is wrong.
#![tactic(auto)]

mod answers;
mod reports;

pub use answers::{RulesAnswer, rules_answer};
