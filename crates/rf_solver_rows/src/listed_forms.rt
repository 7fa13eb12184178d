ghost use Rattle.std.specs.Prelude.{◌≡◌};

use rf_cons::Constraints;
use rf_form::{Form, Vals};
use rf_text::List;

/// Constraints in a list, numbered by place.
#[derive(Drop)]
pub struct Listed {
    pub vals: Vals,
    pub forms: List<Form>,
}

impl Constraints for Listed {
    ghost use Rattle.std.specs.Prelude.{map};
    ghost use Rattle.rf_form.specs.Shown.{form_of};
    ghost use Rattle.rf_cons.specs.Systems.{System};

    ghost system = { λ all. record {
      vals = all.vals;
      formulas = map form_of all.forms;
      numbers = λ place. place;
    } };

    fn vals(&self) -> &Vals {
        &self.vals
    }

    fn count(&self) -> usize {
        self.forms.len()
    }

    fn form(&self, place: usize) -> &Form {
        &self.forms.as_slice()[place]
    }

    fn number(&self, place: usize) -> u64 {
        place as u64
    }
}
