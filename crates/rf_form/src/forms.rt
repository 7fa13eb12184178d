use rf_text::{Boxed, List};

/// A variable by its number, or a value.
#[derive(Clone, Copy)]
pub enum Term {
    Var(u32),
    Const(u32),
}

/// A constraint over the values of variables.
#[derive(Drop)]
pub enum Form {
    True,
    False,
    Eq(Term, Term),
    /// The first value is at most the second.
    Le(Term, Term),
    Not(Boxed<Form>),
    All(List<Form>),
    Any(List<Form>),
}

/// The first domains: the values of each variable, by place.
pub type Vals = List<List<u32>>;

/// One value for each variable.
pub type Assign2 = List<u32>;

/// The value of a formula under domains: Kleene's three.
#[derive(Clone, Copy, Debug)]
pub enum Tri {
    True,
    False,
    Unknown,
}
