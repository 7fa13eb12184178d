//! The account of what stands in a file of Java: a mark for each token.
#![tactic(auto)]

pub mod accounts;
pub mod exprs;
pub mod laws;
mod marks;
pub mod mods;
pub mod names;

pub use accounts::{Account, Start};
pub use marks::{Invocation, Mark, Opening};
