ghost use Rattle.std.specs.Prelude.{◌≡◌, ◌<◌, ◌≤◌, ℕ, [], true, IfOk, OnOk, length, vec_len};
ghost use Rattle.std.specs.Bool.{OnTrue};
ghost use Rattle.rf_form.specs.Alive.{is_among};
ghost use Rattle.rf_form.specs.Mentions.{is_var, mentions, some_mentions};
ghost use Rattle.rf_form.specs.Shown.{form_of, forms_of};
ghost use Rattle.rf_form.specs.Truths.{row};
ghost use Rattle.rf_cons.specs.Systems.{System};
ghost use Rattle.rf_prop.specs.Queues.{Wired};
ghost use Rattle.rf_prop.specs.Wiring.{Keeps, Added, AddedAll};

use crate::nets::Net;
use rf_cons::Constraints;
use rf_form::{Form, Term};
use rf_text::{List, Memory};
use std::alloc::Global;

fn add_term(term: Term, found: &mut List<u32>) -> Result<(), Memory>
    ensures keeps { OnOk result (Keeps found.old found.new) }
    ensures has { OnOk result ((x : ℕ) → is_var term x ≡ true → is_among x found.new ≡ true) }
{
    match term {
        Term::Var(x) => {
            found.push(x)?;
            Ok(())
        }
        Term::Const(_) => Ok(()),
    }
}

/// Adds the variables of the formula, each as often as it stands there.
#[cycle(mention)]
#[tactic(auto, using(rf_form::proofs::Shows::shows))]
fn mention(f: &Form, found: &mut List<u32>) -> Result<(), Memory>
    ensures keeps { OnOk result (Keeps found.old found.new) }
    ensures has { OnOk result ((x : ℕ) → mentions (form_of f.now) x ≡ true →
        is_among x found.new ≡ true) }
{
    match f {
        Form::True => Ok(()),
        Form::False => Ok(()),
        Form::Eq(s, t) => {
            add_term(*s, found)?;
            add_term(*t, found)
        }
        Form::Le(s, t) => {
            add_term(*s, found)?;
            add_term(*t, found)
        }
        Form::Not(g) => mention(g.get(), found),
        Form::All(fs) => mention_each(fs, found),
        Form::Any(fs) => mention_each(fs, found),
    }
}

#[cycle(mention)]
#[tactic(auto, using(rf_form::proofs::Shows::shows))]
fn mention_each(fs: &List<Form>, found: &mut List<u32>) -> Result<(), Memory>
    ensures keeps { OnOk result (Keeps found.old found.new) }
    ensures has { OnOk result ((x : ℕ) → some_mentions (forms_of fs.now) x ≡ true →
        is_among x found.new ≡ true) }
{
    for f in fs.as_slice() {
        mention(f, found)?;
    }
    Ok(())
}

fn ends_with(row: &[u32], place: u32) -> bool
    ensures { OnTrue result (is_among place row.now ≡ true) }
{
    let len = row.len();
    if len == 0 {
        return false;
    }
    row[len - 1] == place
}

/// Puts the constraint into the row of each of its variables, once, and lists these.
fn wire_one(
    alloc: Global,
    found: &[u32],
    place: u32,
    watchers: &mut Vec<List<u32>>,
) -> Result<List<u32>, Memory>
    requires below { (c x : ℕ) → is_among c (row watchers.old.items x) ≡ true → c < place }
    ensures { IfOk result (λ vars.
        Added found.now place watchers.old.items watchers.new.items vars) }
{
    let mut vars = List::new(alloc);
    for x in found {
        let at = *x as usize;
        if at >= watchers.len() {
            continue;
        }
        if ends_with(watchers[at].as_slice(), place) {
            continue;
        }
        watchers[at].push(place)?;
        vars.push(*x)?;
    }
    Ok(vars)
}

/// So many empty rows.
fn empty_rows(alloc: Global, count: usize) -> Result<Vec<List<u32>>, Memory>
    ensures count { IfOk result (λ rows. length rows.items ≡ count) }
    ensures empty { IfOk result (λ rows. (x : ℕ) → row rows.items x ≡ []) }
{
    let mut rows = Vec::with_capacity(alloc, count)?;
    for _ in 0..count {
        rows.push(List::new(alloc))?;
    }
    Ok(rows)
}

/// Wires the constraint at that place: its variables.
fn wire_next<C: Constraints>(
    alloc: Global,
    all: &C,
    place: usize,
    watchers: &mut Vec<List<u32>>,
) -> Result<List<u32>, Memory>
    requires inside { place < length (C.system all.now).formulas }
    requires below { (c x : ℕ) → is_among c (row watchers.old.items x) ≡ true → c < place }
    ensures { IfOk result (λ vars.
        AddedAll (C.system all.now) place watchers.old.items watchers.new.items vars) }
{
    let mut found = List::new(alloc);
    mention(all.form(place), &mut found)?;
    match u32::try_from(place) {
        Ok(number) => wire_one(alloc, found.as_slice(), number, watchers),
        Err(_) => Err(Memory),
    }
}

impl Net {
    /// Wires all constraints.
    pub fn new<C: Constraints>(alloc: Global, all: &C) -> Result<Net, Memory>
        ensures { IfOk result (λ net. Wired (C.system all.now) net.vars net.watchers) }
    {
        let mut watchers = empty_rows(alloc, all.vals().len())?;
        let mut vars = List::new(alloc);
        for place in 0..all.count() {
            let listed = wire_next(alloc, all, place, &mut watchers)?;
            vars.push(listed)?;
        }
        Ok(Net {
            vars,
            watchers: List::from_vec(watchers),
        })
    }
}
