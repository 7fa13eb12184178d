//! The tables of a project, made of its files.
#![tactic(auto)]

mod package_texts;
mod type_keys;

pub use package_texts::packages;
pub use type_keys::type_order;
