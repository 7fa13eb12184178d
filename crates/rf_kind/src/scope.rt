ghost use Rattle.std.specs.Prelude.{◌≡◌, take, [], length, ◌≤◌};
ghost use Rattle.std.specs.List.{find, list_any};
ghost use Rattle.std.specs.Option.{option_copied};
ghost use Rattle.rf_rtree.specs.Levels as spec;
ghost use Rattle.rf_kind.specs.Found.{told_by};
ghost use Rattle.rf_kind.specs.Scopes.{levels};

use crate::faults::{Fault, at_word};
use crate::kinds::is_kind;
use rf_rtree::RVar;

/// The variables in scope, level by level, the innermost first.
#[derive(Clone, Copy)]
pub enum Scope<'s, 'a> {
    Empty,
    Level(&'a [RVar], &'s Scope<'s, 'a>),
}

fn named<'a>(mut vars: &'a [RVar], name: &[u8]) -> Option<&'a RVar>
    ensures { option_copied result ≡ find (spec.has_name name.now) vars.entry.now }
{
    while let [var, rest @ ..] = vars {
        if var.name.text.as_slice() == name {
            return Some(var);
        }
        vars = rest;
    }
    None
}

fn has_name(mut vars: &[RVar], name: &[u8]) -> bool
    ensures { result ≡ list_any (spec.has_name name.now) vars.entry.now }
{
    while let [var, rest @ ..] = vars {
        if var.name.text.as_slice() == name {
            return true;
        }
        vars = rest;
    }
    false
}

/// The variable of a name.
pub fn var_named<'a>(scope: &Scope<'_, 'a>, name: &[u8]) -> Option<&'a RVar>
    ensures { option_copied result ≡ spec.var_named name.now (levels scope.now) }
{
    match scope {
        Scope::Empty => None,
        Scope::Level(vars, outer) => match named(vars, name) {
            Some(var) => Some(var),
            None => var_named(outer, name),
        },
    }
}

fn is_in_scope(scope: &Scope<'_, '_>, name: &[u8]) -> bool
    ensures { result ≡ spec.is_in_scope name.now (levels scope.now) }
{
    match scope {
        Scope::Empty => false,
        Scope::Level(vars, outer) => has_name(vars, name) || is_in_scope(outer, name),
    }
}

/// Names that begin with `j_` are for the built-in rules alone.
pub fn is_reserved(name: &[u8]) -> bool
    ensures { result ≡ spec.is_reserved name.now }
{
    name.len() >= 2 && &name[..2] == b"j_".as_slice()
}

fn is_taken(own: bool, name: &[u8], before: &[RVar], scope: &Scope<'_, '_>) -> bool
    ensures { result ≡ spec.is_taken own name.now before.now (levels scope.now) }
{
    (!own && is_reserved(name)) || (has_name(before, name) || is_in_scope(scope, name))
}

fn var_fault<'a>(
    own: bool,
    scope: &Scope<'_, 'a>,
    before: &[RVar],
    var: &'a RVar,
) -> Option<Fault<'a>>
    ensures { told_by result ≡ spec.var_fault own (levels scope.now) before.now var.now }
{
    if is_taken(own, var.name.text.as_slice(), before, scope) {
        return Some(at_word(&var.name, b"new"));
    }
    if !is_kind(var.kind.text.as_slice()) {
        return Some(at_word(&var.kind, b"kind"));
    }
    None
}

/// The first fault of a list of variables.
pub fn vars_fault<'a>(own: bool, scope: &Scope<'_, 'a>, vars: &'a [RVar]) -> Option<Fault<'a>>
    ensures { told_by result ≡ spec.vars_fault own (levels scope.now) [] vars.now }
{
    for (place, var) in vars.iter().enumerate() {
        if let Some(fault) = var_fault(own, scope, &vars[..place], var) {
            return Some(fault);
        }
    }
    None
}
