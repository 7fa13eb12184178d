ghost use Rattle.std.specs.Prelude.{◌≡◌, if◌then◌else◌};
ghost use Rattle.rf_rtree.specs.Plain.{plains, wrapped};
ghost use Rattle.rf_rprint.specs.Levels.{at_level};

use rf_rtree::RForm;

/// How tightly a formula has to bind where it stands.
#[derive(Clone, Copy, Debug, PartialEq, Eq)]
pub enum Level {
    /// It may be any formula.
    Whole,
    /// Beside `or`, and to the left of `implies`.
    Either,
    /// Beside `and`, and to the right of `or`.
    Both,
    /// Behind `not`, and to the right of `and`.
    Tight,
}

/// Whether a formula needs parentheses where it stands.
#[tactic(auto, using(crate::proofs::FormLemmas::plain_implies, crate::proofs::FormLemmas::plain_or, crate::proofs::FormLemmas::plain_and, crate::proofs::FormLemmas::plain_not, crate::proofs::FormLemmas::plain_every, crate::proofs::FormLemmas::plain_exists, crate::proofs::FormLemmas::plain_truth, crate::proofs::FormLemmas::plain_pred, crate::proofs::FormLemmas::plain_cmp))]
pub fn is_wrapped(form: &RForm, level: Level) -> bool
    ensures { at_level level (plains form.now) ≡ (if result then wrapped (plains form.now).whole
        else (plains form.now).whole) }
{
    match form {
        RForm::Implies(_, _) => match level {
            Level::Whole => false,
            Level::Either | Level::Both | Level::Tight => true,
        },
        RForm::Or(_, _) => match level {
            Level::Whole | Level::Either => false,
            Level::Both | Level::Tight => true,
        },
        RForm::And(_, _) => match level {
            Level::Whole | Level::Either | Level::Both => false,
            Level::Tight => true,
        },
        RForm::Not(_)
        | RForm::Every(_)
        | RForm::Exists(_)
        | RForm::Truth(_)
        | RForm::Pred(_)
        | RForm::Cmp(_, _, _) => false,
    }
}
