/// The place of a text in a `Names`, from 0.
#[derive(Clone, Copy, Debug, PartialEq, Eq, PartialOrd, Ord, Hash)]
pub struct NameId(pub u32);

/// A part of one file: the bytes from `from` up to before `to`, counted from 0.
#[derive(Clone, Copy, Debug, PartialEq, Eq)]
pub struct Span {
    /// The number of the file, from 0.
    pub file: u32,
    /// The first byte.
    pub from: u32,
    /// The byte past the last one.
    pub to: u32,
}
