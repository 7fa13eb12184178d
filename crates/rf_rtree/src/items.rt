use crate::{Ask, RForm, RVar, Word};
use rf_text::List;

/// A rule, or the definition of a derived predicate.
#[derive(Drop)]
pub struct Item {
    /// Whether it derives a predicate.
    pub derive: bool,
    pub name: Word,
    pub vars: List<RVar>,
    /// What is asked of the variables before the body.
    pub asks: List<Ask>,
    pub body: RForm,
}

/// The items of a rule file, in order.
#[derive(Drop)]
pub struct RuleProg {
    pub items: List<Item>,
}
