use rf_jtree::{Toks, Unit};
use rf_text::{Bytes, List, Names};

/// A file of a project.
#[derive(Drop)]
pub struct PlacedUnit {
    pub path: Bytes,
    pub toks: Toks,
    /// For each token the file and the token that it was when the project was numbered; none for one that was put in since.
    pub from: List<Option<(u32, u32)>>,
    pub tree: Unit,
}

/// A project: its own files, then those of the library, then the stubs, each in order.
#[derive(Drop)]
pub struct Project {
    pub units: List<PlacedUnit>,
    /// The texts of names of declarations, of identifiers of references, and of packages.
    pub names: Names,
    /// How many files are its own.
    pub own: u32,
    /// How many files are the library's.
    pub lib: u32,
}
