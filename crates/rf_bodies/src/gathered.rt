//! Formulas gathered one after the other, until they are decided.
ghost use Rattle.std.specs.Prelude.{◌≡◌, List as Items, [], ◌∷◌, ◌++◌, IfOk, OnOk};
ghost use Rattle.rf_form.specs.Formulas.{Formula};
ghost use Rattle.rf_form.specs.Shown.{form_of, listed};
ghost use Rattle.rf_inst.specs.Directs.{constant_form};
ghost use Rattle.rf_bodies.specs.Alike.{Alike};
ghost use Rattle.rf_bodies.specs.Gathered.{so_far, whole};

use crate::joined::{is_false, is_true};
use rf_form::Form;
use rf_text::{List, Memory};

/// Formulas of which all are to be true, or one. None that is decided itself is kept.
#[derive(Drop)]
pub struct Gathered {
    pub all: bool,
    pub decided: bool,
    pub forms: List<Form>,
}

/// One formula more.
pub fn add(gathered: &mut Gathered, form: Form) -> Result<(), Memory>
    ensures same { OnOk result (gathered.new.all ≡ gathered.old.all) }
    ensures grown { OnOk result ((gs : Items Formula) (g : Formula) →
        Alike (so_far gathered.old) (whole gathered.old.all (listed gs)) → Alike (form_of form) g →
        Alike (so_far gathered.new) (whole gathered.old.all (listed (gs ++ g ∷ [])))) }
{
    if gathered.decided {
        return Ok(());
    }
    if is_true(&form) {
        gathered.decided = !gathered.all;
        return Ok(());
    }
    if is_false(&form) {
        gathered.decided = gathered.all;
        return Ok(());
    }
    gathered.forms.push(form)?;
    Ok(())
}

#[tactic(auto, using(rf_form::proofs::Shows::shows))]
fn constant(value: bool) -> Form
    ensures { form_of result ≡ constant_form value }
{
    if value { Form::True } else { Form::False }
}

/// What was gathered as one formula.
#[tactic(auto, using(crate::proofs::Gathering::end_decided, crate::proofs::Gathering::end_empty, crate::proofs::Gathering::end_all, crate::proofs::Gathering::end_any))]
pub fn finished(gathered: Gathered) -> Form
    ensures { Alike (form_of result) (so_far gathered) }
{
    if gathered.decided {
        return constant(!gathered.all);
    }
    if gathered.forms.is_empty() {
        return constant(gathered.all);
    }
    let Gathered {
        all,
        decided: _,
        forms,
    } = gathered;
    if all {
        Form::All(forms)
    } else {
        Form::Any(forms)
    }
}
