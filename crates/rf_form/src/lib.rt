//! Formulas over variables with finite domains: what they say of an assignment, and what of a family of domains.
//! Here too are the definitions of closed parts, closure and need, which the crates of the solver share.
#![tactic(auto)]

mod atoms;
mod domains;
mod fitting;
mod forms;
mod kleene;
mod laws;
mod rows;
mod truths;

pub use domains::{Alive, At, Doms};
pub use forms::{Assign2, Form, Term, Tri, Vals};
pub use kleene::eval3;
pub use laws::{
    each_family_has_a_need, looks_at_its_variables, need_is_one, never_both, single_domains_tell,
    stays_in_parts,
};
pub use truths::eval;
