//! Formulas joined so that none is kept that is decided.
ghost use Rattle.std.specs.Prelude.{◌≡◌, true, [], ◌∷◌, IfOk};
ghost use Rattle.rf_form.specs.Formulas.{AllOf, AnyOf, Lie, Neg, Truth};
ghost use Rattle.rf_form.specs.Shown.{form_of};
ghost use Rattle.rf_inst.specs.Directs.{both};
ghost use Rattle.rf_bodies.specs.Alike.{Alike};

use rf_form::Form;
use rf_text::{Boxed, List, Memory};
use std::alloc::Global;

/// Whether it is the formula that is true.
#[tactic(auto, using(rf_form::proofs::Shows::shows))]
pub fn is_true(form: &Form) -> bool
    ensures { result ≡ true → form_of form.now ≡ Truth }
{
    match form {
        Form::True => true,
        _ => false,
    }
}

/// Whether it is the formula that is false.
#[tactic(auto, using(rf_form::proofs::Shows::shows))]
pub fn is_false(form: &Form) -> bool
    ensures { result ≡ true → form_of form.now ≡ Lie }
{
    match form {
        Form::False => true,
        _ => false,
    }
}

/// Both formulas in a list.
fn pair(alloc: Global, left: Form, right: Form) -> Result<List<Form>, Memory>
    ensures { IfOk result (λ forms. forms ≡ left ∷ right ∷ []) }
{
    let mut forms = List::with_capacity(alloc, 2)?;
    forms.push(left)?;
    forms.push(right)?;
    Ok(forms)
}

/// The formula that is true where this one is false.
#[tactic(auto, using(crate::proofs::Joining::negated_true, crate::proofs::Joining::negated_false, crate::proofs::Joining::negated_open))]
pub fn negated(alloc: Global, form: Form) -> Result<Form, Memory>
    ensures { IfOk result (λ made. Alike (form_of made) (Neg (form_of form))) }
{
    if is_true(&form) {
        return Ok(Form::False);
    }
    if is_false(&form) {
        return Ok(Form::True);
    }
    let inner = Boxed::new(alloc, form)?;
    Ok(Form::Not(inner))
}

/// The formula that is true where both are.
#[tactic(auto, using(crate::proofs::Joining::all_left_true, crate::proofs::Joining::all_right_true, crate::proofs::Joining::all_left_false, crate::proofs::Joining::all_right_false, crate::proofs::Joining::all_open))]
pub fn both_of(alloc: Global, left: Form, right: Form) -> Result<Form, Memory>
    ensures { IfOk result
        (λ made. Alike (form_of made) (AllOf (both (form_of left) (form_of right)))) }
{
    if is_true(&left) {
        return Ok(right);
    }
    if is_true(&right) {
        return Ok(left);
    }
    if is_false(&left) {
        return Ok(left);
    }
    if is_false(&right) {
        return Ok(right);
    }
    let forms = pair(alloc, left, right)?;
    Ok(Form::All(forms))
}

/// The formula that is true where one of both is.
#[tactic(auto, using(crate::proofs::Joining::any_left_true, crate::proofs::Joining::any_right_true, crate::proofs::Joining::any_left_false, crate::proofs::Joining::any_right_false, crate::proofs::Joining::any_open))]
pub fn either_of(alloc: Global, left: Form, right: Form) -> Result<Form, Memory>
    ensures { IfOk result
        (λ made. Alike (form_of made) (AnyOf (both (form_of left) (form_of right)))) }
{
    if is_false(&left) {
        return Ok(right);
    }
    if is_false(&right) {
        return Ok(left);
    }
    if is_true(&left) {
        return Ok(left);
    }
    if is_true(&right) {
        return Ok(right);
    }
    let forms = pair(alloc, left, right)?;
    Ok(Form::Any(forms))
}
