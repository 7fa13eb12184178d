//! Refutations as text: written, and read.
#![tactic(auto)]

mod errors;
mod laws;
mod nodes;
mod numbers;
mod reading;
mod versions;
mod words;
mod writing;

pub use errors::TextErr;
pub use laws::{
    bad_lines_are_unique, texts_are_of_one_tree, texts_have_no_bad_line,
    written_trees_are_read_back,
};
pub use reading::read;
pub use writing::write;
