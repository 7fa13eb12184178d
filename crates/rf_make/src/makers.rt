use crate::indexes::Index;
use rf_facts::Facts;
use std::alloc::Global;

/// What formulas are made from: facts, properties, and for each derived predicate the variable of its first tuple, and its
/// tuples. Below `queries` each number is that of a query.
pub struct Maker<'a> {
    pub alloc: Global,
    pub facts: &'a Facts,
    pub queries: u32,
    pub index: &'a Index,
    pub bases: &'a [u32],
    pub derived: &'a Facts,
}
