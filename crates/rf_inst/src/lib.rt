//! Instances of rule programs over a project: constraints over the values of properties.
#![tactic(auto)]

mod constraints;
mod errors;
mod instances;
mod laws;
mod opening;

pub use constraints::Con;
pub use errors::{InstErr, Kind};
pub use instances::Inst;
pub use laws::{
    an_instance_has_one_need, constraints_are_false_as_the_pairs, each_instance_has_a_need,
};
pub use opening::first_doms;
