// How tightly a form of expression binds, from an assignment on (JLS 15.14 to 15.26).
pub const ASSIGNMENT_LEVEL: usize = 0;

pub const CONDITIONAL_LEVEL: usize = 1;

pub const OR_OR_LEVEL: usize = 2;

pub const AND_AND_LEVEL: usize = 3;

pub const OR_LEVEL: usize = 4;

pub const XOR_LEVEL: usize = 5;

pub const AND_LEVEL: usize = 6;

pub const EQUALITY_LEVEL: usize = 7;
/// That of `instanceof` too.
pub const COMPARISON_LEVEL: usize = 8;

pub const SHIFT_LEVEL: usize = 9;

pub const ADDITIVE_LEVEL: usize = 10;

pub const MULTIPLICATIVE_LEVEL: usize = 11;
/// That of casts too.
pub const UNARY_LEVEL: usize = 12;

pub const POSTFIX_LEVEL: usize = 13;

pub const PRIMARY_LEVEL: usize = 14;
