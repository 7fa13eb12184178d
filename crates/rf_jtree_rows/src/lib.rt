//! Tests of tokens: words and operators, new names and dotted names.
#![tactic(auto)]

#[cfg(test)]
mod names;
#[cfg(test)]
mod tables;
#[cfg(test)]
mod tokens;
