//! The pairs of rules by the join: words of a rule become places of variables, once.
#![tactic(auto)]

mod counted;
mod kept;
mod laws;
mod places;
mod queries;
mod spans;
mod tuples;

pub use laws::{formulas_over_places_are_those_over_scopes, the_tuples_of_the_join_are_the_pairs};
pub use places::place_of;
pub use queries::{asked, asks};
pub use spans::ranges;
pub use tuples::{count_pairs, pairs, visit_pairs};
