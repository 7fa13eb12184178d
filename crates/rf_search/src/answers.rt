use rf_form::Assign2;
use rf_refute::Tree;

/// What a search answers: the first solution in canonical order, a refutation, or that the need is
/// above the budget.
#[derive(Drop)]
pub enum Found {
    Solution(Assign2),
    Refutation(Tree),
    Budget { counted: u64 },
}

/// How a search ended, with what is left of the budget.
#[derive(Clone, Copy, Debug)]
pub enum End {
    Solved { left: u64 },
    Nothing { left: u64 },
    Budget,
}
