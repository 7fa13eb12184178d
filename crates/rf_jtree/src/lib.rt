//! Tokens and trees of Java: what a token list of a text is, and what a tree that fits is, with the tables of words.
#![tactic(auto)]

mod decls;
mod exprs;
mod identifiers;
mod java_path;
pub mod keyword_names;
pub mod levels;
mod name_text;
mod names;
pub mod operator_names;
mod operators;
mod stmts;
mod tables;
mod token_kinds;
mod token_spans;
mod tokens;
mod words;

pub use decls::{Body, CtorCall, Import, Member, Param, Params, Ret, TypeDecl, Unit};
pub use exprs::{Args, Braces, Expr, Init};
pub use identifiers::{is_identifier, is_letter, is_letter_or_digit, is_word, kind_of_word};
pub use java_path::is_java_path;
pub use names::{Dims, Dotted, Many, Mod, Name, Strs, TypeBase, TypeUse};
pub use operators::{Op, every_operator_is_found, operator, operators_are_found};
pub use stmts::{Block, Catch, EachHead, ForFirst, ForHead, Group, Head, Local, Stmt, Var};
pub use token_spans::{spans, spans_are_texts};
pub use tokens::{Tok, TokKind, Toks};
pub use words::{Kw, every_keyword_is_found, keyword, keywords_are_found};
