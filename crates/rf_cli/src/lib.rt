//! The commands of the program: words to a status, over a world and a sink.
#![tactic(auto)]

mod command;
mod decide;
mod java_files;
mod listing;
mod put;
mod rule_files;
mod status;
mod whole_run;

pub use status::Status;
pub use whole_run::run;
