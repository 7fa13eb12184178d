//! The parser of files: the tree that fits and has all their tokens.
#![tactic(auto)]

mod ctors;
mod decl_tests;
mod decls;
mod fields;
mod fronts;
mod heads;
mod imports;
mod laws;
mod members;
mod methods;
mod units;

pub use fronts::begins_type;
pub use laws::files_have_one_tree;
pub use units::unit;
