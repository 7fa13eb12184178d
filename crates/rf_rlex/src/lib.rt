//! The lexer of rule files: bytes to tokens with their lines.
#![tactic(auto)]

mod classes;
mod fronts;
mod lexer;
mod tokens;
mod words;

pub use lexer::lex;
pub use tokens::{Placed, Tok};
