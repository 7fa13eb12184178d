//! Tests of the text of refutations, on its public items.
#![tactic(auto)]

#[cfg(test)]
mod texts;
