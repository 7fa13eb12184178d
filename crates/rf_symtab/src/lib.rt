//! The tables of a project, and the types that names mean.
#![tactic(auto)]

mod answers;
mod type_names;

pub use answers::Answer;
pub use type_names::type_at;
