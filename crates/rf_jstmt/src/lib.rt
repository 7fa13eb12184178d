//! The parser of statements: the longest block that fits, and where it ends.
#![tactic(auto)]

mod blocks;
mod branches;
mod ends;
mod fronts;
mod heads;
mod laws;
mod locals;
mod longest;
mod loops;
mod simple;
mod top;
mod tries;
mod variables;

pub use blocks::{body, stmts};
pub use fronts::begins_label;
pub use laws::blocks_have_one_tree;
pub use longest::block;
pub use variables::vars;
