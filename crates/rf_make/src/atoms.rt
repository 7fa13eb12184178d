ghost use Rattle.std.specs.Prelude.{◌≡◌, IfOk};
ghost use Rattle.rf_form.specs.Shown.{form_of};
ghost use Rattle.rf_inst.specs.Directs.{apart as spec_apart, atom as spec_atom, compared as spec_compared, is_one as spec_is_one};
ghost use Rattle.rf_make.specs.Meanings.{meant};

use crate::meanings::Meaning;
use rf_form::{Form, Term};
use rf_rtree::Comp;
use rf_text::{Boxed, Memory};
use std::alloc::Global;

#[tactic(auto, using(rf_form::proofs::Shows::shows))]
fn compared(alloc: Global, left: Term, how: Comp, right: Term) -> Result<Form, Memory>
    ensures { IfOk result (λ form. form_of form ≡ spec_compared left how right) }
{
    match how {
        Comp::Equal => Ok(Form::Eq(left, right)),
        Comp::Unequal => {
            let inner = Boxed::new(alloc, Form::Eq(left, right))?;
            Ok(Form::Not(inner))
        }
        Comp::AtMost => Ok(Form::Le(left, right)),
    }
}

/// A text that is not among the names against a value.
#[tactic(auto, using(rf_form::proofs::Shows::shows))]
fn apart(how: Comp) -> Form
    ensures { form_of result ≡ spec_apart how }
{
    match how {
        Comp::Equal | Comp::AtMost => Form::False,
        Comp::Unequal => Form::True,
    }
}

/// The formula that compares what two terms stand for.
#[tactic(auto, using(rf_form::proofs::Shows::shows))]
pub fn atom(alloc: Global, left: Meaning, how: Comp, right: Meaning) -> Result<Form, Memory>
    ensures { IfOk result (λ form. form_of form ≡ spec_atom (meant left) how (meant right)) }
{
    match left {
        Meaning::Missing => Ok(Form::False),
        Meaning::Unnamed => match right {
            Meaning::Missing => Ok(Form::False),
            Meaning::Unnamed | Meaning::Known(_) => Ok(apart(how)),
        },
        Meaning::Known(left) => match right {
            Meaning::Missing => Ok(Form::False),
            Meaning::Unnamed => Ok(apart(how)),
            Meaning::Known(right) => compared(alloc, left, how, right),
        },
    }
}

/// The formula that says that the value is 1.
#[tactic(auto, using(rf_form::proofs::Shows::shows))]
pub fn is_one(meaning: Meaning) -> Form
    ensures { form_of result ≡ spec_is_one (meant meaning) }
{
    match meaning {
        Meaning::Missing | Meaning::Unnamed => Form::False,
        Meaning::Known(value) => Form::Eq(value, Term::Const(1)),
    }
}
