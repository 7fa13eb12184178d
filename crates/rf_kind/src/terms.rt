ghost use Rattle.std.specs.Prelude.{◌≡◌, map};
ghost use Rattle.std.specs.List.{list_any};
ghost use Rattle.rf_rtree.specs.Kinds as kind_spec;
ghost use Rattle.rf_rtree.specs.Terms as spec;
ghost use Rattle.rf_kind.specs.Found.{told_by};
ghost use Rattle.rf_kind.specs.Scopes.{levels};

use crate::asks::arg_fault;
use crate::faults::{Fault, Said, at_word};
use crate::kinds::{is_part, row_named};
use crate::scope::{Scope, var_named};
use rf_rtree::{RTerm, Word, properties};

fn fits_one(kind: &[u8], mut kinds: &[&[u8]]) -> bool
    ensures { result ≡ list_any (kind_spec.is_part kind.now)
        (map (λ wanted. wanted.now) kinds.entry.now) }
{
    while let [wanted, rest @ ..] = kinds {
        if is_part(kind, wanted) {
            return true;
        }
        kinds = rest;
    }
    false
}

fn wanted_of(kinds: &'static [&'static [u8]]) -> &'static [u8]
    ensures { result.now ≡ spec.wanted_of (map (λ kind. kind.now) kinds.now) }
{
    match kinds {
        [] => b"",
        [kind, ..] => kind,
    }
}

/// The element is a variable in scope, the property is one, and the element's kind has it.
fn prop_fault<'a>(scope: &Scope<'_, 'a>, elem: &'a Word, prop: &'a Word) -> Option<Fault<'a>>
    ensures { told_by result ≡ spec.prop_fault (levels scope.now) elem.now prop.now }
{
    let Some(var) = var_named(scope, elem.text.as_slice()) else {
        return Some(at_word(elem, b"variable"));
    };
    let Some(row) = row_named(properties(), prop.text.as_slice()) else {
        return Some(at_word(prop, b"property"));
    };
    let kind = var.kind.text.as_slice();
    if fits_one(kind, row.kinds) {
        return None;
    }
    Some(Fault {
        line: elem.line,
        found: Said::Text(kind),
        wanted: Said::Text(wanted_of(row.kinds)),
    })
}

pub fn term_fault<'a>(scope: &Scope<'_, 'a>, term: &'a RTerm) -> Option<Fault<'a>>
    ensures { told_by result ≡ spec.term_fault (levels scope.now) term.now }
{
    match term {
        RTerm::Prop { elem, prop } => prop_fault(scope, elem, prop),
        RTerm::Old { elem, prop, .. } => prop_fault(scope, elem, prop),
        RTerm::Var(word) => arg_fault(scope, b"type", word),
        RTerm::Access(_) | RTerm::Text(_) => None,
    }
}

/// The line of a term's first word.
pub fn term_line(term: &RTerm) -> u32
    ensures { result ≡ spec.term_line term.now }
{
    match term {
        RTerm::Prop { elem, .. } => elem.line,
        RTerm::Old { line, .. } => *line,
        RTerm::Var(word) => word.line,
        RTerm::Access(word) => word.line,
        RTerm::Text(word) => word.line,
    }
}

fn prop_sort(prop: &[u8]) -> &[u8]
    ensures { result.now ≡ spec.prop_sort prop.now }
{
    if b"owner".as_slice() == prop {
        return b"type";
    }
    if b"written".as_slice() == prop {
        return b"package";
    }
    prop
}

pub fn term_sort(term: &RTerm) -> &[u8]
    ensures { result.now ≡ spec.term_sort term.now }
{
    match term {
        RTerm::Prop { prop, .. } => prop_sort(prop.text.as_slice()),
        RTerm::Old { prop, .. } => prop_sort(prop.text.as_slice()),
        RTerm::Var(_) => b"type",
        RTerm::Access(_) => b"access",
        RTerm::Text(_) => b"text",
    }
}
