use crate::Sort;
use rf_text::Bytes;

/// The target line of a request: what is to be changed, and to what.
#[derive(Drop)]
pub enum TargetLine {
    Rename {
        sort: Sort,
        name: Bytes,
        /// The new name.
        value: Bytes,
        line: u32,
    },
    Move {
        sort: Sort,
        name: Bytes,
        /// The new package.
        value: Bytes,
        line: u32,
    },
    Pull {
        sort: Sort,
        name: Bytes,
        /// The name of the new owner.
        value: Bytes,
        line: u32,
    },
    Access {
        sort: Sort,
        name: Bytes,
        /// The new access word.
        value: Bytes,
        line: u32,
    },
}
