use rf_text::{List, Names};

/// A property: the numbers of the elements that share it, its values in order, and the old one among them.
#[derive(Drop)]
pub struct PropRow {
    /// 0 name, 1 access, 2 owner, 3 package, 4 written, 5 slot.
    pub prop: u16,
    pub elems: List<u32>,
    pub vals: List<u32>,
    pub old: u32,
}

/// The properties of a project, in order, and what is known of the elements outside it.
#[derive(Drop)]
pub struct PropTable {
    /// The names and packages that values are places of.
    pub names: Names,
    /// How many types, fields, methods, constructors, locals, references and units there are: an element's number is its
    /// place in the list of all of them.
    pub counts: List<u32>,
    pub rows: List<PropRow>,
    /// A row with one value for each property of an element outside the project.
    pub fixed: List<PropRow>,
    /// The value that is asked for of the first property.
    pub forced: u32,
}
