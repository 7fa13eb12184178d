//! Lists of facts, one for each query, with an index for each argument.
#![tactic(auto)]

mod asked;
mod bands;
mod columns;
mod facts;
mod properties;
mod queries;
mod rows;
mod table;
mod tuples;
mod walks;

pub use bands::Interval;
pub use facts::Facts;
pub use properties::{PropRow, PropTable};
pub use tuples::Tuple;
