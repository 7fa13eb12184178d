//! Formulas. What doesn't walk on stands in functions of its own, so that a deep formula takes little of the stack.
ghost use Rattle.std.specs.Prelude.{◌≡◌, ◌++◌, codes, map, OnOk};
ghost use Rattle.rf_rtree.specs.Plain.{plains, with_commas, var_text, asks_text};
ghost use Rattle.rf_rtree.specs.Plain as spec;
ghost use Rattle.rf_rprint.specs.Levels.{at_level, quant_text};

use crate::levels::{Level, is_wrapped};
use crate::lists::{print_ask, print_asks, print_vars};
use crate::terms::print_comparison;
use rf_rtree::{Quant, RForm};
use rf_text::{Bytes, Memory};

fn print_head(quant: &Quant, out: &mut Bytes) -> Result<(), Memory>
    ensures { OnOk result (out.new ≡ out.old ++ (with_commas (map var_text quant.now.vars) ++
        (asks_text (codes " if ") quant.now.asks ++ (codes ": " ++ codes "(")))) }
{
    print_vars(quant.vars.as_slice(), out)?;
    print_asks(b" if ", quant.asks.as_slice(), out)?;
    out.extend(b": (")?;
    Ok(())
}

#[cycle(print)]
fn print_quant(quant: &Quant, out: &mut Bytes) -> Result<(), Memory>
    ensures { OnOk result (out.new ≡ out.old ++ quant_text quant.now) }
{
    print_head(quant, out)?;
    print_form(quant.body.get(), out)?;
    out.extend(b")")?;
    Ok(())
}

#[cycle(print)]
fn print_at(form: &RForm, level: Level, out: &mut Bytes) -> Result<(), Memory>
    ensures { OnOk result (out.new ≡ out.old ++ at_level level (plains form.now)) }
{
    if is_wrapped(form, level) {
        out.extend(b"(")?;
        print_form(form, out)?;
        out.extend(b")")?;
        return Ok(());
    }
    print_form(form, out)?;
    Ok(())
}

fn truth_text(value: bool) -> &'static [u8]
    ensures { result.now ≡ spec.truth_text value }
{
    if value { b"true" } else { b"false" }
}

#[tactic(auto, using(crate::proofs::FormLemmas::whole_truth, crate::proofs::FormLemmas::whole_pred, crate::proofs::FormLemmas::whole_cmp))]
#[cycle(print)]
pub fn print_form(form: &RForm, out: &mut Bytes) -> Result<(), Memory>
    ensures { OnOk result (out.new ≡ out.old ++ (plains form.now).whole) }
{
    match form {
        RForm::Implies(left, right) => {
            print_at(left.get(), Level::Either, out)?;
            out.extend(b" implies ")?;
            print_form(right.get(), out)?;
            Ok(())
        }
        RForm::Or(left, right) => {
            print_at(left.get(), Level::Either, out)?;
            out.extend(b" or ")?;
            print_at(right.get(), Level::Both, out)?;
            Ok(())
        }
        RForm::And(left, right) => {
            print_at(left.get(), Level::Both, out)?;
            out.extend(b" and ")?;
            print_at(right.get(), Level::Tight, out)?;
            Ok(())
        }
        RForm::Not(inner) => {
            out.extend(b"not ")?;
            print_at(inner.get(), Level::Tight, out)?;
            Ok(())
        }
        RForm::Every(quant) => {
            out.extend(b"all ")?;
            print_quant(quant, out)?;
            Ok(())
        }
        RForm::Exists(quant) => {
            out.extend(b"some ")?;
            print_quant(quant, out)?;
            Ok(())
        }
        RForm::Truth(value) => {
            out.extend(truth_text(*value))?;
            Ok(())
        }
        RForm::Pred(ask) => {
            print_ask(ask, out)?;
            Ok(())
        }
        RForm::Cmp(left, comp, right) => {
            print_comparison(left, *comp, right, out)?;
            Ok(())
        }
    }
}
