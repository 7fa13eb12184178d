//! The parser of expressions: the longest tree that fits, and where it ends.
#![tactic(auto)]

mod binary;
mod continuations;
mod creation;
mod cursor;
mod found;
mod laws;
mod longest;
mod names;
mod parse_err;
mod parts;
mod primary;
mod shapes;
mod top;
mod unary;

pub use cursor::{Want, is_at, take, take_if, tok_at};
pub use found::{Found, Taken, attempt, deeper, grown, joined, many_of, pair, pair_found};
pub use laws::{expressions_begin_with, expressions_have_one_tree};
pub use longest::{args, boxed_expr, expr, init, name, new_expr, type_use};
pub use names::dims;
pub use parse_err::ParseErr;
pub use parts::exprs;
