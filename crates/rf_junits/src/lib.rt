//! The walk over a file that writes its account: members, types, files.
#![tactic(auto)]

mod members;
mod params;
mod units;

pub use members::member;
pub use units::{unit_account, unit_walk, walk_unit};
