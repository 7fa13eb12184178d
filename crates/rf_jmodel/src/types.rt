use crate::TypeId;

/// A type without its brackets (JLS 4.1 to 4.3).
#[derive(Clone, Copy, Debug, PartialEq, Eq)]
pub enum TyBase {
    Boolean,
    Byte,
    Short,
    Int,
    Long,
    Char,
    Float,
    Double,
    /// The type of `null` (JLS 4.1).
    Null,
    /// What a method without a result has in place of a type (JLS 8.4.5).
    Void,
    /// A class or an interface.
    Class(TypeId),
}

/// The type of an expression or a declaration: a base with so many pairs of brackets. `Null` and `Void` have none.
#[derive(Clone, Copy, Debug, PartialEq, Eq)]
pub struct Ty {
    pub base: TyBase,
    pub dims: u32,
}
