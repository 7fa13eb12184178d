ghost use Rattle.std.specs.Prelude.{◌≡◌, ℕ, slice_index_or};
ghost use Rattle.rf_form.specs.Shown.{form_of, forms_of};
ghost use Rattle.rf_form.specs.Truths.{value, truth, all_true, any_true};

use crate::{Assign2, Form, Term};

/// The value of a term. A variable without a value has 0.
fn value_of(term: Term, values: &Assign2) -> u32
    ensures { result ≡ value (λ x. slice_index_or values.now x 0) term }
{
    match term {
        Term::Var(x) => values.as_slice().get(x as usize).copied().unwrap_or(0),
        Term::Const(value) => value,
    }
}

/// Whether the formula is true of the values. A variable without a value has 0.
#[cycle(eval)]
#[tactic(auto, using(crate::proofs::Shows::shows))]
pub fn eval(f: &Form, a: &Assign2) -> bool
    ensures { result ≡ truth (λ x. slice_index_or a.now x 0) (form_of f.now) }
{
    match f {
        Form::True => true,
        Form::False => false,
        Form::Eq(s, t) => value_of(*s, a) == value_of(*t, a),
        Form::Le(s, t) => value_of(*s, a) <= value_of(*t, a),
        Form::Not(g) => !eval(g.get(), a),
        Form::All(fs) => each_is_true(fs, a),
        Form::Any(fs) => some_is_true(fs, a),
    }
}

#[cycle(eval)]
#[tactic(auto, using(crate::proofs::Shows::shows))]
fn each_is_true(fs: &rf_text::List<Form>, a: &Assign2) -> bool
    ensures { result ≡ all_true (λ x. slice_index_or a.now x 0) (forms_of fs.now) }
{
    for f in fs.as_slice() {
        if !eval(f, a) {
            return false;
        }
    }
    true
}

#[cycle(eval)]
#[tactic(auto, using(crate::proofs::Shows::shows))]
fn some_is_true(fs: &rf_text::List<Form>, a: &Assign2) -> bool
    ensures { result ≡ any_true (λ x. slice_index_or a.now x 0) (forms_of fs.now) }
{
    for f in fs.as_slice() {
        if eval(f, a) {
            return true;
        }
    }
    false
}
