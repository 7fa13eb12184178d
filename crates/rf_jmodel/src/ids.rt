/// A type, by its number among the types of a project.
#[derive(Clone, Copy, Debug, PartialEq, Eq, PartialOrd, Ord, Hash)]
pub struct TypeId(pub u32);

/// A field, by its number among the fields of a project.
#[derive(Clone, Copy, Debug, PartialEq, Eq, PartialOrd, Ord, Hash)]
pub struct FieldId(pub u32);

/// A method, by its number among the methods of a project.
#[derive(Clone, Copy, Debug, PartialEq, Eq, PartialOrd, Ord, Hash)]
pub struct MethodId(pub u32);

/// A constructor, written or default, by its number among those of a project.
#[derive(Clone, Copy, Debug, PartialEq, Eq, PartialOrd, Ord, Hash)]
pub struct CtorId(pub u32);

/// A local variable or a parameter, by its number among those of a project.
#[derive(Clone, Copy, Debug, PartialEq, Eq, PartialOrd, Ord, Hash)]
pub struct LocalId(pub u32);

/// A file, by its number in a project.
#[derive(Clone, Copy, Debug, PartialEq, Eq, PartialOrd, Ord, Hash)]
pub struct UnitId(pub u32);

/// A declaration of fields, of a method or of a constructor, by its number among those of a project.
#[derive(Clone, Copy, Debug, PartialEq, Eq, PartialOrd, Ord, Hash)]
pub struct NodeId(pub u32);

/// A reference, by the entry of its place: the file and the token that it was when the project was numbered.
#[derive(Clone, Copy, Debug, PartialEq, Eq, PartialOrd, Ord, Hash)]
pub struct RefId {
    pub unit: u32,
    pub token: u32,
}

/// What is declared.
#[derive(Clone, Copy, Debug, PartialEq, Eq)]
pub enum Decl {
    Typ(TypeId),
    Field(FieldId),
    Method(MethodId),
    Ctor(CtorId),
    Local(LocalId),
}

/// What a reference is bound to.
#[derive(Clone, Copy, Debug, PartialEq, Eq)]
pub enum Target {
    Decl(Decl),
    /// `length` of an array (JLS 10.7).
    ArrayLength,
    /// `clone()` of an array (JLS 10.7).
    ArrayClone,
}
