//! Refutations: when a list of nodes is one, what that means, and a checker of them.
#![tactic(auto)]

mod checker;
mod checking;
mod entering;
mod falsity;
mod fitting;
mod frames;
mod laws;
mod nodes;
mod opening;
mod rooms;
mod taking;
mod values;

pub use checker::Checker;
pub use entering::enter;
pub use frames::{Frame, Frames};
pub use laws::{first_bad_is_one, good_has_no_bad_node, good_refutes};
pub use nodes::{Node, Tree, Verdict};
pub use rooms::room_of;
pub use taking::go_back;
pub use values::next_from;
