//! Facts against lists that are written down.
#![tactic(auto)]

#[cfg(test)]
mod lists;
