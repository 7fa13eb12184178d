use crate::Sort;
use rf_text::{Bytes, List};

/// What a line behind the target line says, in its words.
#[derive(Drop)]
pub enum Choice {
    Allow(List<Bytes>),
    Spare(List<Bytes>),
    Decisions(u64),
    Keep(Sort, Bytes),
    Rules(Bytes),
}

/// A line behind the target line, with its number.
#[derive(Drop)]
pub struct ChoiceLine {
    pub number: u32,
    pub choice: Choice,
}
