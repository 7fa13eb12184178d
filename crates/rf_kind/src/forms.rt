ghost use Rattle.std.specs.Prelude.{◌≡◌};
ghost use Rattle.rf_rtree.specs.Faults.{first_of};
ghost use Rattle.rf_rtree.specs.Asks as ask_spec;
ghost use Rattle.rf_rtree.specs.Programs as spec;
ghost use Rattle.rf_kind.specs.Found.{told_by};
ghost use Rattle.rf_kind.specs.Scopes.{levels, known_of};

use crate::asks::{Program, predicate_fault, query_fault};
use crate::compared::comparison_fault;
use crate::faults::Fault;
use crate::scope::{Scope, vars_fault};
use rf_rtree::{Ask, Quant, RForm, RVar};

pub fn queries_fault<'a>(
    program: Program<'a>,
    scope: &Scope<'_, 'a>,
    mut asks: &'a [Ask],
) -> Option<Fault<'a>>
    ensures { told_by result
        ≡ first_of (ask_spec.query_fault (known_of program.entry) (levels scope.now))
        asks.entry.now }
{
    while let [ask, rest @ ..] = asks {
        if let Some(fault) = query_fault(program, scope, ask) {
            return Some(fault);
        }
        asks = rest;
    }
    None
}

/// The first fault of variables and of the queries on them.
pub fn head_fault<'a>(
    program: Program<'a>,
    vars: &'a [RVar],
    asks: &'a [Ask],
    scope: &Scope<'_, 'a>,
) -> Option<Fault<'a>>
    ensures { told_by result
        ≡ spec.head_fault (known_of program.entry) vars.now asks.now (levels scope.now) }
{
    if let Some(fault) = vars_fault(program.lang.own, scope, vars) {
        return Some(fault);
    }
    queries_fault(program, &Scope::Level(vars, scope), asks)
}

#[cycle(forms)]
fn quant_fault<'a>(
    program: Program<'a>,
    quant: &'a Quant,
    scope: &Scope<'_, 'a>,
) -> Option<Fault<'a>>
    ensures { told_by result ≡ spec.quant_fault (known_of program.entry) quant.now
        (levels scope.now) }
{
    let vars = quant.vars.as_slice();
    if let Some(fault) = head_fault(program, vars, quant.asks.as_slice(), &*scope) {
        return Some(fault);
    }
    form_fault(program, quant.body.get(), &Scope::Level(vars, &*scope))
}

/// The first fault of a formula under the variables in scope.
#[tactic(auto, using(crate::proofs::FormLemmas::fault_implies, crate::proofs::FormLemmas::fault_or, crate::proofs::FormLemmas::fault_and, crate::proofs::FormLemmas::fault_not, crate::proofs::FormLemmas::fault_every, crate::proofs::FormLemmas::fault_exists, crate::proofs::FormLemmas::fault_truth, crate::proofs::FormLemmas::fault_pred, crate::proofs::FormLemmas::fault_cmp))]
#[cycle(forms)]
pub fn form_fault<'a>(
    program: Program<'a>,
    form: &'a RForm,
    scope: &Scope<'_, 'a>,
) -> Option<Fault<'a>>
    ensures { told_by result ≡ spec.form_fault (known_of program.entry) form.now
        (levels scope.now) }
{
    match form {
        RForm::Implies(left, right) => match form_fault(program, left.get(), scope) {
            Some(fault) => Some(fault),
            None => form_fault(program, right.get(), scope),
        },
        RForm::Or(left, right) => match form_fault(program, left.get(), scope) {
            Some(fault) => Some(fault),
            None => form_fault(program, right.get(), scope),
        },
        RForm::And(left, right) => match form_fault(program, left.get(), scope) {
            Some(fault) => Some(fault),
            None => form_fault(program, right.get(), scope),
        },
        RForm::Not(inner) => form_fault(program, inner.get(), scope),
        RForm::Every(quant) => quant_fault(program, quant, scope),
        RForm::Exists(quant) => quant_fault(program, quant, scope),
        RForm::Truth(_) => None,
        RForm::Pred(ask) => predicate_fault(program, scope, ask),
        RForm::Cmp(left, comp, right) => comparison_fault(scope, left, *comp, right),
    }
}
