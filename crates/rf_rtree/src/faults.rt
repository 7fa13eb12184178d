use rf_text::Bytes;

/// A kind fault.
#[derive(Drop)]
pub struct KindFault {
    /// The name of the item that has it.
    pub rule: Bytes,
    /// The line of the faulty word.
    pub line: u32,
    pub found: Bytes,
    pub wanted: Bytes,
}
