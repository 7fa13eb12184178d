use rf_text::{Bytes, List};

/// A word of a rule file, with the line that it stands on, from 1.
#[derive(Drop)]
pub struct Word {
    pub text: Bytes,
    pub line: u32,
}

/// A variable and the kind that it ranges over.
#[derive(Drop)]
pub struct RVar {
    pub name: Word,
    pub kind: Word,
}

/// A query or a predicate, asked of variables.
#[derive(Drop)]
pub struct Ask {
    pub name: Word,
    pub args: List<Word>,
}
