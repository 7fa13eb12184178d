//! The lexer: bytes to tokens, each the longest match at its offset.
#![tactic(auto)]

mod classes;
mod comments;
mod digits;
mod escapes;
mod laws;
mod lexer;
mod numbers;
mod operators;
mod pieces;
mod quoted;
mod words;

pub use laws::{a_fault_has_no_tokens, bytes_come_back, faults_are_unique, token_lists_are_unique};
pub use lexer::{LexErr, lex};
