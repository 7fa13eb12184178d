//! The canonical search of constraints over finite domains: the first solution, or a refutation,
//! within a budget.
#![tactic(auto)]

mod answers;
mod searching;
mod solving;
mod splitting;
mod writing;

pub use answers::Found;
pub use solving::solve;
