ghost use Rattle.std.specs.Prelude.{◌≡◌, ◌||◌};
ghost use Rattle.rf_form.specs.Alive.{IsFit};
ghost use Rattle.rf_form.specs.Atoms.{Says, many, is_value, is_unknown, value_of, ended, negated};
ghost use Rattle.rf_form.specs.Shown.{form_of, forms_of};

use crate::atoms::{Test, atom_value};
use crate::{Alive, Form, Tri, Vals};
use rf_text::List;

fn not(value: Tri) -> Tri
    ensures { result ≡ negated value }
{
    match value {
        Tri::True => Tri::False,
        Tri::False => Tri::True,
        Tri::Unknown => Tri::Unknown,
    }
}

fn decides(value: Tri, decisive: bool) -> bool
    ensures { result ≡ is_value value decisive }
{
    match value {
        Tri::True => decisive,
        Tri::False => !decisive,
        Tri::Unknown => false,
    }
}

fn is_unsure(unsure: bool, value: Tri) -> bool
    ensures { result ≡ (unsure || is_unknown value) }
{
    match value {
        Tri::Unknown => true,
        Tri::True | Tri::False => unsure,
    }
}

fn tri_of(value: bool) -> Tri
    ensures { result ≡ value_of value }
{
    if value { Tri::True } else { Tri::False }
}

fn end_of(decisive: bool, unsure: bool) -> Tri
    ensures { result ≡ ended decisive unsure }
{
    if unsure {
        Tri::Unknown
    } else {
        tri_of(!decisive)
    }
}

/// The value of a formula under domains, by Kleene: an atom is true, or false, where the alive values have a choice
/// and agree in each.
#[cycle(eval3)]
#[tactic(auto, using(crate::proofs::Shows::shows))]
pub fn eval3<D: Alive>(f: &Form, vals: &Vals, d: &D) -> Tri
    requires { IsFit vals.now (D.family d.now) }
    ensures { Says vals.now (D.family d.now) (form_of f.now) result }
{
    match f {
        Form::True => Tri::True,
        Form::False => Tri::False,
        Form::Eq(s, t) => atom_value(vals, d, Test::Equal, *s, *t),
        Form::Le(s, t) => atom_value(vals, d, Test::AtMost, *s, *t),
        Form::Not(g) => not(eval3(g.get(), vals, d)),
        Form::All(fs) => many_value(fs, vals, d, false),
        Form::Any(fs) => many_value(fs, vals, d, true),
    }
}

/// The value of all formulas, where false decides, or of any, where true does.
#[cycle(eval3)]
#[tactic(auto, using(crate::proofs::Shows::shows))]
fn many_value<D: Alive>(fs: &List<Form>, vals: &Vals, d: &D, decisive: bool) -> Tri
    requires { IsFit vals.now (D.family d.now) }
    ensures { Says vals.now (D.family d.now) (many decisive (forms_of fs.now)) result }
{
    let mut unsure = false;
    for f in fs.as_slice() {
        let value = eval3(f, vals, d);
        if decides(value, decisive) {
            return tri_of(decisive);
        }
        unsure = is_unsure(unsure, value);
    }
    end_of(decisive, unsure)
}
