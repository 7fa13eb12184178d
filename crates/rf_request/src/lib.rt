//! Requests: the text of a request file, line by line, and what it asks for.
#![tactic(auto)]

mod choice_reader;
mod choices;
mod cuts;
mod forms;
mod lines;
mod numbers;
mod opened;
mod options;
mod reader;
mod request;
mod sorts;
mod target_line;
mod targets;

pub use options::Options;
pub use reader::{ReqErr, read_request};
pub use request::Request;
pub use sorts::Sort;
pub use target_line::TargetLine;
