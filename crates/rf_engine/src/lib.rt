//! One refactoring, from the bytes of files to the bytes of files.
#![tactic(auto)]

mod class_file;
mod field;
mod field_names;
mod first_form;
mod first_parts;
mod report;
mod request;
mod scan;

pub use first_form::{FirstPath, first_path};
