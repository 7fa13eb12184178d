//! Tests of projects: small files that are numbered, and the ids of their elements and references.
#![tactic(auto)]

#[cfg(test)]
mod files;
#[cfg(test)]
mod lists;
#[cfg(test)]
mod rows;
