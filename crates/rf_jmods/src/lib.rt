//! The parser of modifiers and annotations, as many as stand there.
#![tactic(auto)]

mod annotations;
mod mod_tests;
mod modifiers;

pub use mod_tests::mods_fit;
pub use modifiers::{mods, variable_mods};
