//! Copies of programs. A copy of a formula stands in a box at once, so that formulas of any depth are copied in little room.
ghost use Rattle.std.specs.Prelude.{◌≡◌, IfOk};

use crate::{Ask, Comp, Item, Lang, Quant, RForm, RTerm, RVar, RuleProg, Word};
use rf_text::{Boxed, Bytes, List, Memory};
use std::alloc::Global;

/// What can be had once more.
pub trait Copied: Drop {
    fn copy(&self, alloc: Global) -> Result<Self, Memory>
        ensures { IfOk result (λ copy. copy ≡ self.now) };
}

fn copy_list<T: Copied>(alloc: Global, items: &[T]) -> Result<List<T>, Memory>
    ensures { IfOk result (λ copy. copy ≡ items.now) }
{
    let mut copies = List::new(alloc);
    for item in items {
        let copy = item.copy(alloc)?;
        copies.push(copy)?;
    }
    Ok(copies)
}

impl Copied for Bytes {
    fn copy(&self, alloc: Global) -> Result<Bytes, Memory> {
        Bytes::from_slice(alloc, self.as_slice())
    }
}

impl Copied for Word {
    fn copy(&self, alloc: Global) -> Result<Word, Memory> {
        let text = Bytes::from_slice(alloc, self.text.as_slice())?;
        Ok(Word {
            text,
            line: self.line,
        })
    }
}

impl Copied for RVar {
    fn copy(&self, alloc: Global) -> Result<RVar, Memory> {
        let name = self.name.copy(alloc)?;
        let kind = self.kind.copy(alloc)?;
        Ok(RVar { name, kind })
    }
}

impl Copied for Ask {
    fn copy(&self, alloc: Global) -> Result<Ask, Memory> {
        let name = self.name.copy(alloc)?;
        let args = copy_list(alloc, self.args.as_slice())?;
        Ok(Ask { name, args })
    }
}

impl Copied for RTerm {
    fn copy(&self, alloc: Global) -> Result<RTerm, Memory> {
        match self {
            RTerm::Prop { elem, prop } => {
                let elem = elem.copy(alloc)?;
                let prop = prop.copy(alloc)?;
                Ok(RTerm::Prop { elem, prop })
            }
            RTerm::Old { line, elem, prop } => {
                let elem = elem.copy(alloc)?;
                let prop = prop.copy(alloc)?;
                Ok(RTerm::Old {
                    line: *line,
                    elem,
                    prop,
                })
            }
            RTerm::Var(word) => Ok(RTerm::Var(word.copy(alloc)?)),
            RTerm::Access(word) => Ok(RTerm::Access(word.copy(alloc)?)),
            RTerm::Text(word) => Ok(RTerm::Text(word.copy(alloc)?)),
        }
    }
}

fn predicate(alloc: Global, ask: &Ask) -> Result<Boxed<RForm>, Memory>
    ensures { IfOk result (λ form. form ≡ RForm.Pred ask.now) }
{
    let ask = ask.copy(alloc)?;
    Boxed::new(alloc, RForm::Pred(ask))
}

fn comparison(
    alloc: Global,
    left: &RTerm,
    comp: Comp,
    right: &RTerm,
) -> Result<Boxed<RForm>, Memory>
    ensures { IfOk result (λ form. form ≡ RForm.Cmp left.now comp right.now) }
{
    let left = left.copy(alloc)?;
    let right = right.copy(alloc)?;
    Boxed::new(alloc, RForm::Cmp(left, comp, right))
}

#[cycle(copied)]
fn copy_quant(alloc: Global, quant: &Quant) -> Result<Quant, Memory>
    ensures { IfOk result (λ copy. copy ≡ quant.now) }
{
    let vars = copy_list(alloc, quant.vars.as_slice())?;
    let asks = copy_list(alloc, quant.asks.as_slice())?;
    let body = copy_form(alloc, quant.body.get())?;
    Ok(Quant { vars, asks, body })
}

/// The same formula once more, in a box.
#[cycle(copied)]
fn copy_form(alloc: Global, form: &RForm) -> Result<Boxed<RForm>, Memory>
    ensures { IfOk result (λ copy. copy ≡ form.now) }
{
    match form {
        RForm::Implies(left, right) => {
            let left = copy_form(alloc, left.get())?;
            let right = copy_form(alloc, right.get())?;
            Boxed::new(alloc, RForm::Implies(left, right))
        }
        RForm::Or(left, right) => {
            let left = copy_form(alloc, left.get())?;
            let right = copy_form(alloc, right.get())?;
            Boxed::new(alloc, RForm::Or(left, right))
        }
        RForm::And(left, right) => {
            let left = copy_form(alloc, left.get())?;
            let right = copy_form(alloc, right.get())?;
            Boxed::new(alloc, RForm::And(left, right))
        }
        RForm::Not(inner) => {
            let inner = copy_form(alloc, inner.get())?;
            Boxed::new(alloc, RForm::Not(inner))
        }
        RForm::Every(quant) => {
            let quant = copy_quant(alloc, quant)?;
            Boxed::new(alloc, RForm::Every(quant))
        }
        RForm::Exists(quant) => {
            let quant = copy_quant(alloc, quant)?;
            Boxed::new(alloc, RForm::Exists(quant))
        }
        RForm::Truth(value) => Boxed::new(alloc, RForm::Truth(*value)),
        RForm::Pred(ask) => predicate(alloc, ask),
        RForm::Cmp(left, comp, right) => comparison(alloc, left, *comp, right),
    }
}

impl Copied for Item {
    fn copy(&self, alloc: Global) -> Result<Item, Memory> {
        let name = self.name.copy(alloc)?;
        let vars = copy_list(alloc, self.vars.as_slice())?;
        let asks = copy_list(alloc, self.asks.as_slice())?;
        let body = copy_form(alloc, &self.body)?;
        Ok(Item {
            derive: self.derive,
            name,
            vars,
            asks,
            body: body.into_inner(),
        })
    }
}

impl Copied for RuleProg {
    fn copy(&self, alloc: Global) -> Result<RuleProg, Memory> {
        let items = copy_list(alloc, self.items.as_slice())?;
        Ok(RuleProg { items })
    }
}

fn copy_queries(
    alloc: Global,
    queries: &[(Bytes, List<Bytes>)],
) -> Result<List<(Bytes, List<Bytes>)>, Memory>
    ensures { IfOk result (λ copy. copy ≡ queries.now) }
{
    let mut copies = List::new(alloc);
    for query in queries {
        let name = Bytes::from_slice(alloc, query.0.as_slice())?;
        let kinds = copy_list(alloc, query.1.as_slice())?;
        copies.push((name, kinds))?;
    }
    Ok(copies)
}

impl Copied for Lang {
    fn copy(&self, alloc: Global) -> Result<Lang, Memory> {
        let queries = copy_queries(alloc, self.queries.as_slice())?;
        Ok(Lang {
            queries,
            own: self.own,
        })
    }
}
