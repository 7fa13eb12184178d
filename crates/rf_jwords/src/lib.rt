//! Tokens from texts in which they stand apart by spaces, for tests of what reads tokens.
#![tactic(auto)]

mod words;

pub use words::{cut, kind, token, tokens};
