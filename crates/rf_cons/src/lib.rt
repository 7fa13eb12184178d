//! Numbered constraints over first domains: what closing, search and the checker are generic over.
#![tactic(auto)]

mod constraints;
mod falsity;

pub use constraints::Constraints;
pub use falsity::{is_false, is_false_at};
