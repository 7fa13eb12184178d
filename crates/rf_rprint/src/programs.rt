//! Items and programs.
ghost use Rattle.std.specs.Prelude.{◌≡◌, ◌++◌, IfOk, OnOk};
ghost use Rattle.rf_rtree.specs.Plain as spec;
ghost use Rattle.rf_rprint.specs.Heads.{head_text};

use crate::forms::print_form;
use crate::lists::{print_asks, print_vars};
use rf_rtree::{Item, RuleProg};
use rf_text::{Bytes, Memory};
use std::alloc::Global;

fn head_word(derive: bool) -> &'static [u8]
    ensures { result.now ≡ spec.head_word derive }
{
    if derive { b"derive " } else { b"rule " }
}

fn body_word(derive: bool) -> &'static [u8]
    ensures { result.now ≡ spec.body_word derive }
{
    if derive { b"means " } else { b"then " }
}

/// The lines before the body.
fn print_head(item: &Item, out: &mut Bytes) -> Result<(), Memory>
    ensures { OnOk result (out.new ≡ out.old ++ head_text item.now) }
{
    out.extend(head_word(item.derive))?;
    out.extend(item.name.text.as_slice())?;
    out.extend(b"\nfor ")?;
    print_vars(item.vars.as_slice(), out)?;
    print_asks(b"\nif ", item.asks.as_slice(), out)?;
    Ok(())
}

fn print_item(item: &Item, out: &mut Bytes) -> Result<(), Memory>
    ensures { OnOk result (out.new ≡ out.old ++ spec.item_text item.now) }
{
    print_head(item, out)?;
    out.extend(b"\n")?;
    out.extend(body_word(item.derive))?;
    print_form(&item.body, out)?;
    out.extend(b"\nend\n")?;
    Ok(())
}

fn print_items(mut items: &[Item], out: &mut Bytes) -> Result<(), Memory>
    ensures { OnOk result (out.new ≡ out.old ++ spec.items_text items.entry.now) }
{
    while let [item, rest @ ..] = items {
        print_item(item, out)?;
        items = rest;
    }
    Ok(())
}

/// The plain print of a program, which needs no kind checking before.
pub fn print_rules(alloc: Global, prog: &RuleProg) -> Result<Bytes, Memory>
    ensures { IfOk result (λ text. text ≡ spec.plain prog.now) }
{
    let mut out = Bytes::new(alloc);
    print_items(prog.items.as_slice(), &mut out)?;
    Ok(out)
}
