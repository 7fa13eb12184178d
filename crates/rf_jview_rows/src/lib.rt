//! Tests of the account of a file: small files, each token with its mark by the Java specification.
#![tactic(auto)]

#[cfg(test)]
mod files;
#[cfg(test)]
mod mark_text;
