//! Tests of the types that names mean: tables of small projects, written by hand.
#![tactic(auto)]

#[cfg(test)]
mod names_of_types;
