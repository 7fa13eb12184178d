ghost use Rattle.std.specs.Prelude.{◌≡◌, ◌<◌, length};
ghost use Rattle.rf_form.specs.Constraints.{formula_at};
ghost use Rattle.rf_form.specs.Shown.{form_of};
ghost use Rattle.rf_cons.specs.Systems.{System};

use rf_form::{Form, Vals};

/// The first domains, and the constraints by place. Each has a number, which rises with the place.
pub trait Constraints {
    ghost system: { Self → System };

    fn vals(&self) -> &Vals
        ensures { result.now ≡ (system self.now).vals };

    /// How many constraints there are.
    fn count(&self) -> usize
        ensures { result ≡ length (system self.now).formulas };

    fn form(&self, place: usize) -> &Form
        requires { place < length (Self.system self.now).formulas }
        ensures { form_of result.now ≡ formula_at (system self.now).formulas place };

    fn number(&self, place: usize) -> u64
        requires { place < length (Self.system self.now).formulas }
        ensures { result ≡ (system self.now).numbers place };
}
