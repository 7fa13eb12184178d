use rf_join::{Asked, Range};
use rf_rtree::Comp;
use rf_text::{Boxed, List};

/// What is compared. An element is that of the variable at a place.
#[derive(Clone, Copy)]
pub enum Operand {
    /// The property of an element.
    Now { place: u32, prop: u32 },
    /// Its old value.
    Old { place: u32, prop: u32 },
    Element(u32),
    /// A text or an access by its place, where it has one.
    Fixed(Option<u32>),
}

/// Variables by what they range over, the queries that they meet, and what is said of them.
#[cycle(body)]
#[derive(Drop)]
pub struct Many {
    pub ranges: List<Range>,
    pub asks: List<Asked>,
    pub body: Boxed<Body>,
}

/// A formula of a rule over the numbers of variables.
#[cycle(body)]
#[derive(Drop)]
pub enum Body {
    Implies(Boxed<Body>, Boxed<Body>),
    Or(Boxed<Body>, Boxed<Body>),
    And(Boxed<Body>, Boxed<Body>),
    Not(Boxed<Body>),
    Every(Many),
    Exists(Many),
    Truth(bool),
    /// The import of the type at the second place by the unit at the first.
    Slot(List<u32>),
    /// A derived predicate by its number, asked of places.
    Derived(u32, List<u32>),
    Compare(Operand, Comp, Operand),
}
