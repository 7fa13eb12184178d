use crate::TypeId;
use indexmap::IndexMap;
use rf_text::{Bytes, List, NameId};

/// A type as its package and its name lead to it.
#[derive(Clone, Copy, Debug, PartialEq, Eq)]
pub struct TypeRow {
    pub id: TypeId,
    pub is_public: bool,
}

/// What names of types mean in a file beside its package.
#[derive(Drop)]
pub struct UnitRow {
    pub package: NameId,
    /// The name of the file's type, and the type.
    pub own: (NameId, TypeId),
    /// The types that are imported one by one, under their last identifiers.
    pub single: IndexMap<NameId, TypeId>,
    /// The packages that are imported on demand, each once, `java.lang` first and then as they stand.
    pub demand: List<NameId>,
}

/// The tables by which names of types are found.
#[derive(Drop)]
pub struct Tables {
    /// The packages, each once, in byte order.
    pub packages: List<Bytes>,
    /// The types under their packages and names, in element order.
    pub types: IndexMap<(NameId, NameId), TypeRow>,
    /// A row for each file.
    pub units: List<UnitRow>,
    /// For each type its direct supertypes: the superclass, then the superinterfaces as they stand.
    pub supers: List<List<TypeId>>,
}
