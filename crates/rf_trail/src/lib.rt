//! Domains as bits, and what a store of domains promises that goes back to a mark.
#![tactic(auto)]

mod bitdom;
mod sets;
mod store;
mod trails;
mod word;

pub use bitdom::BitDom;
pub use store::{Mark, Store};
pub use trails::Trail;
