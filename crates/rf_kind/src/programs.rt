ghost use Rattle.std.specs.Prelude.{◌≡◌};
ghost use Rattle.std.specs.List.{list_any};
ghost use Rattle.rf_rtree.specs.Programs as spec;
ghost use Rattle.rf_kind.specs.Found.{told_by, told_in};
ghost use Rattle.rf_kind.specs.Scopes.{known_of};

use crate::asks::Program;
use crate::faults::{Fault, at_word};
use crate::forms::{form_fault, head_fault};
use crate::scope::{Scope, is_reserved};
use rf_rtree::{Item, Lang, RuleProg};

fn has_item(mut items: &[Item], name: &[u8]) -> bool
    ensures { result ≡ list_any (spec.is_item name.now) items.entry.now }
{
    while let [item, rest @ ..] = items {
        if item.name.text.as_slice() == name {
            return true;
        }
        items = rest;
    }
    false
}

fn is_item_taken(own: bool, name: &[u8], before: &[Item]) -> bool
    ensures { result ≡ spec.is_item_taken own name.now before.now }
{
    (!own && is_reserved(name)) || (b"slot".as_slice() == name || has_item(before, name))
}

/// The first fault of an item, which stands behind the items before it.
fn item_fault<'a>(program: Program<'a>, before: &[Item], item: &'a Item) -> Option<Fault<'a>>
    ensures { told_by result ≡ spec.item_fault (known_of program.entry) before.now item.now }
{
    if is_item_taken(program.lang.own, item.name.text.as_slice(), before) {
        return Some(at_word(&item.name, b"new"));
    }
    let vars = item.vars.as_slice();
    let outside = Scope::Empty;
    if let Some(fault) = head_fault(program, vars, item.asks.as_slice(), &outside) {
        return Some(fault);
    }
    form_fault(program, &item.body, &Scope::Level(vars, &outside))
}

/// A fault with the item that has it.
#[derive(Clone, Copy)]
pub struct Blamed<'a> {
    pub item: &'a Item,
    pub fault: Fault<'a>,
}

/// The first kind fault of a program in a language. It takes no memory.
pub fn first_blamed<'a>(prog: &'a RuleProg, lang: &'a Lang) -> Option<Blamed<'a>>
    ensures { told_in result ≡ spec.first_fault prog.now lang.now }
{
    let items = prog.items.as_slice();
    let program = Program { items, lang };
    for (place, item) in items.iter().enumerate() {
        if let Some(fault) = item_fault(program, &items[..place], item) {
            return Some(Blamed { item, fault });
        }
    }
    None
}
