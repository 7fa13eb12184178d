//! Tests of the lexer: each form of piece beside its nearest neighbours.
#![tactic(auto)]

#[cfg(test)]
mod leads;
#[cfg(test)]
mod texts;
