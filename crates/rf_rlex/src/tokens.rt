use rf_text::Bytes;

/// A token of the rule language.
#[derive(Drop)]
pub enum Tok {
    Rule,
    Derive,
    For,
    If,
    Then,
    Means,
    End,
    Implies,
    Or,
    And,
    Not,
    All,
    Some,
    True,
    False,
    Comma,
    Colon,
    Dot,
    Left,
    Right,
    Equal,
    Unequal,
    AtMost,
    Old,
    Name(Bytes),
    /// One of the four access words.
    Access(Bytes),
    /// A text, without its quotes.
    Text(Bytes),
    /// A place at which no token begins.
    Bad,
}

/// A token, and the line on which it stands, from 1.
#[derive(Drop)]
pub struct Placed {
    pub tok: Tok,
    pub line: u32,
}
