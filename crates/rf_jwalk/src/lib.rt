//! The walk over statements that writes the account of a file.
#![tactic(auto)]

mod heads;
pub mod stmts;
pub mod vars;
