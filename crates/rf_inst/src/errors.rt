/// What is counted against a limit.
#[derive(Clone, Copy, Debug, PartialEq, Eq)]
pub enum Kind {
    Files,
    File,
    Bytes,
    Text,
    Domain,
    Tuples,
    Atoms,
}

/// Why there is no instance.
#[derive(Drop)]
pub enum InstErr {
    TooLarge { kind: Kind, counted: u64 },
    Memory,
}
