//! Tests of the solver's crates, on their public items.
#![tactic(auto)]

#[cfg(test)]
mod bits;
#[cfg(test)]
mod closing;
#[cfg(test)]
mod formulas;
#[cfg(test)]
mod kleene;
mod listed_forms;

pub use listed_forms::Listed;
