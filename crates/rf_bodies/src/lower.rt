ghost use Rattle.std.specs.Prelude.{◌≡◌, ◌<◌, length, IfOk};
ghost use Rattle.rf_pairs.specs.Places.{NOWHERE};
ghost use Rattle.rf_bodies.specs.Lowered.{IsPredicate, Says, SaysMany};

use crate::bodies::{Body, Many};
use crate::operands::operand;
use crate::words::{number_in, places, with_names};
use rf_facts::PropTable;
use rf_pairs::{asks, ranges};
use rf_rtree::{Ask, Lang, Quant, RForm};
use rf_text::{Boxed, Bytes, List, Memory};
use std::alloc::Global;

/// An import, or a derived predicate by its number.
fn predicate(
    alloc: Global,
    derived: &[Bytes],
    names: &[Bytes],
    ask: &Ask,
) -> Result<Boxed<Body>, Memory>
    requires { length names.now < NOWHERE }
    ensures { IfOk result (λ body. IsPredicate derived.now names.now ask.now body) }
{
    let args = places(alloc, names, ask.args.as_slice())?;
    let name = ask.name.text.as_slice();
    if b"slot".as_slice() == name {
        return Boxed::new(alloc, Body::Slot(args));
    }
    let which = number_in(derived, name);
    if which > u32::MAX as usize {
        return Err(Memory);
    }
    Boxed::new(alloc, Body::Derived(which as u32, args))
}

#[cycle(lowers)]
fn lower_quant(
    alloc: Global,
    lang: &Lang,
    table: &PropTable,
    derived: &[Bytes],
    names: &[Bytes],
    quant: &Quant,
) -> Result<Many, Memory>
    ensures { IfOk result
        (λ many. SaysMany lang.now table.now derived.now names.now quant.now many) }
{
    let all = with_names(alloc, names, quant.vars.as_slice())?;
    let ranges = ranges(alloc, table.counts.as_slice(), quant.vars.as_slice())?;
    let asks = asks(alloc, lang, all.as_slice(), quant.asks.as_slice())?;
    let body = lower_form(
        alloc,
        lang,
        table,
        derived,
        all.as_slice(),
        quant.body.get(),
    )?;
    Ok(Many { ranges, asks, body })
}

/// The formula over places and numbers that says what it says over names.
#[cycle(lowers)]
pub fn lower_form(
    alloc: Global,
    lang: &Lang,
    table: &PropTable,
    derived: &[Bytes],
    names: &[Bytes],
    form: &RForm,
) -> Result<Boxed<Body>, Memory>
    requires { length names.now < NOWHERE }
    ensures { IfOk result (λ body. Says lang.now table.now derived.now names.now form.now body) }
{
    match form {
        RForm::Implies(left, right) => {
            let left = lower_form(alloc, lang, table, derived, names, left.get())?;
            let right = lower_form(alloc, lang, table, derived, names, right.get())?;
            Boxed::new(alloc, Body::Implies(left, right))
        }
        RForm::Or(left, right) => {
            let left = lower_form(alloc, lang, table, derived, names, left.get())?;
            let right = lower_form(alloc, lang, table, derived, names, right.get())?;
            Boxed::new(alloc, Body::Or(left, right))
        }
        RForm::And(left, right) => {
            let left = lower_form(alloc, lang, table, derived, names, left.get())?;
            let right = lower_form(alloc, lang, table, derived, names, right.get())?;
            Boxed::new(alloc, Body::And(left, right))
        }
        RForm::Not(inner) => {
            let inner = lower_form(alloc, lang, table, derived, names, inner.get())?;
            Boxed::new(alloc, Body::Not(inner))
        }
        RForm::Every(quant) => {
            let many = lower_quant(alloc, lang, table, derived, names, quant)?;
            Boxed::new(alloc, Body::Every(many))
        }
        RForm::Exists(quant) => {
            let many = lower_quant(alloc, lang, table, derived, names, quant)?;
            Boxed::new(alloc, Body::Exists(many))
        }
        RForm::Truth(value) => Boxed::new(alloc, Body::Truth(*value)),
        RForm::Pred(ask) => predicate(alloc, derived, names, ask),
        RForm::Cmp(left, comp, right) => {
            let left = operand(table, names, left);
            let right = operand(table, names, right);
            Boxed::new(alloc, Body::Compare(left, *comp, right))
        }
    }
}
