//! A tree of boxes and lists, of which two values are compared as they are.
ghost use Rattle.std.specs.Prelude.{◌≡◌, IfOk};
ghost use Rattle.rf_text_rows.specs.Formula.{meaning};

use rf_text::{Boxed, List, Memory};
use std::alloc::Global;

#[derive(Drop)]
pub(crate) enum Formula {
    True,
    Not(Boxed<Formula>),
    All(List<Formula>),
}

impl Formula {
    #[tactic(auto, using(crate::proofs::Meaning::meanings))]
    pub(crate) fn holds(&self) -> bool
        ensures { result ≡ meaning self.now }
    {
        match self {
            Formula::True => true,
            Formula::Not(formula) => !formula.get().holds(),
            Formula::All(formulas) => {
                for formula in formulas.iter() {
                    if !formula.holds() {
                        return false;
                    }
                }
                true
            }
        }
    }

    /// The same formula once more.
    pub(crate) fn copy(&self, alloc: Global) -> Result<Formula, Memory>
        ensures { IfOk result (λ formula. formula ≡ self.now) }
    {
        match self {
            Formula::True => Ok(Formula::True),
            Formula::Not(formula) => {
                let copy = formula.get().copy(alloc)?;
                Ok(Formula::Not(Boxed::new(alloc, copy)?))
            }
            Formula::All(formulas) => {
                let mut copies = List::with_capacity(alloc, formulas.len())?;
                for formula in formulas.iter() {
                    copies.push(formula.copy(alloc)?)?;
                }
                Ok(Formula::All(copies))
            }
        }
    }
}
