use rf_text::{Bytes, List};

/// What a program may ask.
#[derive(Drop)]
pub struct Lang {
    /// The queries, each with the kinds of its arguments.
    pub queries: List<(Bytes, List<Bytes>)>,
    /// Whether names that begin with `j_` are free.
    pub own: bool,
}
