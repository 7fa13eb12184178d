//! Trees of Java made of their parts: for each form a function that puts its parts together.
#![tactic(auto)]

mod boxes;
pub mod continuations;
pub mod exprs;
pub mod simple_stmts;
pub mod stmts;

pub use boxes::put;
