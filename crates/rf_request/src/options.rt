use crate::Sort;
use rf_text::{Bytes, List};

/// What a request opens and keeps beside its target.
#[derive(Drop)]
pub struct Options {
    pub names: bool,
    pub access: bool,
    pub owners: bool,
    pub imports: bool,
    /// Each spare name once, in the order in which they come first.
    pub spares: List<Bytes>,
    /// The sort, the name and the line of each element that is kept.
    pub keep: List<(Sort, Bytes, u32)>,
    /// The rule files, each with its line.
    pub rules: List<(Bytes, u32)>,
}
