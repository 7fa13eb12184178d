use rf_form::Term;

/// What a term of a rule stands for.
#[derive(Clone, Copy)]
pub enum Meaning {
    /// A property that the element hasn't got.
    Missing,
    /// A text that is not among the names.
    Unnamed,
    Known(Term),
}
