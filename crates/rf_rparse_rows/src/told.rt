//! A program as a text with brackets around each of its forms. A word has its line behind it, as in `a/2`, but for line 1.

use rf_rtree::{Ask, Comp, Item, Quant, RForm, RTerm, RVar, RuleProg, Word};
use rf_text::{Bytes, Memory};
use std::alloc::Global;

/// The last digit of a line; nothing for line 1.
fn tell_line(line: u32, out: &mut Bytes) -> Result<(), Memory> {
    if line == 1 {
        return Ok(());
    }
    out.extend(&[b'/', b'0' + (line % 10) as u8])
}

fn tell_word(word: &Word, out: &mut Bytes) -> Result<(), Memory> {
    out.extend(word.text.as_slice())?;
    tell_line(word.line, out)
}

fn tell_vars(vars: &[RVar], out: &mut Bytes) -> Result<(), Memory> {
    for var in vars {
        out.extend(b" ")?;
        tell_word(&var.name, out)?;
        out.extend(b":")?;
        tell_word(&var.kind, out)?;
    }
    Ok(())
}

fn tell_ask(ask: &Ask, out: &mut Bytes) -> Result<(), Memory> {
    tell_word(&ask.name, out)?;
    out.extend(b"(")?;
    for arg in ask.args.as_slice() {
        out.extend(b" ")?;
        tell_word(arg, out)?;
    }
    out.extend(b" )")
}

fn tell_asks(asks: &[Ask], out: &mut Bytes) -> Result<(), Memory> {
    for ask in asks {
        out.extend(b" ")?;
        tell_ask(ask, out)?;
    }
    Ok(())
}

/// Variables and queries, with a bar behind each of both.
fn tell_head(vars: &[RVar], asks: &[Ask], out: &mut Bytes) -> Result<(), Memory> {
    tell_vars(vars, out)?;
    out.extend(b" |")?;
    tell_asks(asks, out)?;
    out.extend(b" | ")
}

fn tell_prop(elem: &Word, prop: &Word, out: &mut Bytes) -> Result<(), Memory> {
    tell_word(elem, out)?;
    out.extend(b".")?;
    tell_word(prop, out)
}

fn tell_term(term: &RTerm, out: &mut Bytes) -> Result<(), Memory> {
    match term {
        RTerm::Prop { elem, prop } => tell_prop(elem, prop, out),
        RTerm::Old { line, elem, prop } => {
            out.extend(b"old")?;
            tell_line(*line, out)?;
            out.extend(b" ")?;
            tell_prop(elem, prop, out)
        }
        RTerm::Var(word) => tell_word(word, out),
        RTerm::Access(word) => {
            out.extend(b"access ")?;
            tell_word(word, out)
        }
        RTerm::Text(word) => {
            out.extend(b"text ")?;
            tell_word(word, out)
        }
    }
}

fn tell_comparison(left: &RTerm, comp: Comp, right: &RTerm, out: &mut Bytes) -> Result<(), Memory> {
    match comp {
        Comp::Equal => out.extend(b"(= ")?,
        Comp::Unequal => out.extend(b"(!= ")?,
        Comp::AtMost => out.extend(b"(<= ")?,
    }
    tell_term(left, out)?;
    out.extend(b" ")?;
    tell_term(right, out)?;
    out.extend(b")")
}

#[cycle(tell)]
fn tell_left(word: &[u8], left: &RForm, out: &mut Bytes) -> Result<(), Memory> {
    out.extend(word)?;
    tell_form(left, out)?;
    out.extend(b" ")
}

#[cycle(tell)]
fn tell_right(right: &RForm, out: &mut Bytes) -> Result<(), Memory> {
    tell_form(right, out)?;
    out.extend(b")")
}

#[cycle(tell)]
fn tell_quant(word: &[u8], quant: &Quant, out: &mut Bytes) -> Result<(), Memory> {
    out.extend(word)?;
    tell_head(quant.vars.as_slice(), quant.asks.as_slice(), out)?;
    tell_form(quant.body.get(), out)?;
    out.extend(b")")
}

#[cycle(tell)]
fn tell_form(form: &RForm, out: &mut Bytes) -> Result<(), Memory> {
    match form {
        RForm::Implies(left, right) => {
            tell_left(b"(implies ", left.get(), out)?;
            tell_right(right.get(), out)
        }
        RForm::Or(left, right) => {
            tell_left(b"(or ", left.get(), out)?;
            tell_right(right.get(), out)
        }
        RForm::And(left, right) => {
            tell_left(b"(and ", left.get(), out)?;
            tell_right(right.get(), out)
        }
        RForm::Not(inner) => {
            out.extend(b"(not ")?;
            tell_right(inner.get(), out)
        }
        RForm::Every(quant) => tell_quant(b"(all", quant, out),
        RForm::Exists(quant) => tell_quant(b"(some", quant, out),
        RForm::Truth(true) => out.extend(b"true"),
        RForm::Truth(false) => out.extend(b"false"),
        RForm::Pred(ask) => tell_ask(ask, out),
        RForm::Cmp(left, comp, right) => tell_comparison(left, *comp, right, out),
    }
}

fn tell_item(item: &Item, out: &mut Bytes) -> Result<(), Memory> {
    if item.derive {
        out.extend(b"[derive ")?;
    } else {
        out.extend(b"[rule ")?;
    }
    tell_word(&item.name, out)?;
    tell_head(item.vars.as_slice(), item.asks.as_slice(), out)?;
    tell_form(&item.body, out)?;
    out.extend(b"]")
}

/// The items in order, each in square brackets.
pub(crate) fn program_told(alloc: Global, prog: &RuleProg) -> Result<Bytes, Memory> {
    let mut out = Bytes::new(alloc);
    for item in prog.items.as_slice() {
        tell_item(item, &mut out)?;
    }
    Ok(out)
}
