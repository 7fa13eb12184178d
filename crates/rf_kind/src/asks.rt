ghost use Rattle.std.specs.Prelude.{◌≡◌, [], ◌∷◌, length, MatchOption};
ghost use Rattle.std.specs.List.{find};
ghost use Rattle.std.specs.Option.{option_copied};
ghost use Rattle.rf_rtree.specs.Asks as spec;
ghost use Rattle.rf_kind.specs.Found.{told_by};
ghost use Rattle.rf_kind.specs.Scopes.{levels, arg_kinds, kinds_found, known_of};

use crate::faults::{Fault, Said, at_word};
use crate::kinds::is_part;
use crate::scope::{Scope, var_named};
use rf_rtree::{Ask, Item, Lang, RVar, Word};
use rf_text::{Bytes, List};

/// What is known all over a program.
#[derive(Clone, Copy)]
pub struct Program<'a> {
    pub items: &'a [Item],
    pub lang: &'a Lang,
}

/// The kinds of arguments: as texts, as those of variables, or fixed ones.
#[derive(Clone, Copy)]
pub enum ArgKinds<'a> {
    Texts(&'a [Bytes]),
    Vars(&'a [RVar]),
    Fixed(&'a [&'a [u8]]),
}

fn count(kinds: ArgKinds) -> usize
    ensures { result ≡ length (arg_kinds kinds.entry) }
{
    match kinds {
        ArgKinds::Texts(texts) => texts.len(),
        ArgKinds::Vars(vars) => vars.len(),
        ArgKinds::Fixed(texts) => texts.len(),
    }
}

/// The first kind, and those behind it.
fn first<'a>(kinds: ArgKinds<'a>) -> Option<(&'a [u8], ArgKinds<'a>)>
    ensures { MatchOption result
        (arg_kinds kinds.entry ≡ [])
        (λ both. arg_kinds kinds.entry ≡ both.0.now ∷ arg_kinds both.1) }
{
    match kinds {
        ArgKinds::Texts([text, rest @ ..]) => Some((text.as_slice(), ArgKinds::Texts(rest))),
        ArgKinds::Vars([var, rest @ ..]) => {
            Some((var.kind.text.as_slice(), ArgKinds::Vars(rest)))
        }
        ArgKinds::Fixed([text, rest @ ..]) => Some((*text, ArgKinds::Fixed(rest))),
        _ => None,
    }
}

static SLOT: [&[u8]; 2] = [b"unit", b"type"];

fn query_named<'a>(
    name: &[u8],
    mut queries: &'a [(Bytes, List<Bytes>)],
) -> Option<&'a (Bytes, List<Bytes>)>
    ensures { option_copied result ≡ find (spec.asks name.now) queries.entry.now }
{
    while let [query, rest @ ..] = queries {
        if query.0.as_slice() == name {
            return Some(query);
        }
        queries = rest;
    }
    None
}

fn query_kinds<'a>(name: &[u8], lang: &'a Lang) -> Option<ArgKinds<'a>>
    ensures { kinds_found result ≡ spec.query_kinds name.now lang.now }
{
    match query_named(name, lang.queries.as_slice()) {
        None => None,
        Some(query) => Some(ArgKinds::Texts(query.1.as_slice())),
    }
}

fn derived_item<'a>(name: &[u8], mut items: &'a [Item]) -> Option<&'a Item>
    ensures { option_copied result ≡ find (spec.derives name.now) items.entry.now }
{
    while let [item, rest @ ..] = items {
        if item.derive && item.name.text.as_slice() == name {
            return Some(item);
        }
        items = rest;
    }
    None
}

fn predicate_kinds<'a>(name: &[u8], items: &'a [Item]) -> Option<ArgKinds<'a>>
    ensures { kinds_found result ≡ spec.predicate_kinds name.now items.now }
{
    if b"slot".as_slice() == name {
        return Some(ArgKinds::Fixed(&SLOT));
    }
    match derived_item(name, items) {
        None => None,
        Some(item) => Some(ArgKinds::Vars(item.vars.as_slice())),
    }
}

/// An argument is a variable in scope, of the wanted kind.
pub fn arg_fault<'a>(scope: &Scope<'_, 'a>, wanted: &'a [u8], word: &'a Word) -> Option<Fault<'a>>
    ensures { told_by result ≡ spec.arg_fault (levels scope.now) wanted.now word.now }
{
    let Some(var) = var_named(scope, word.text.as_slice()) else {
        return Some(at_word(word, b"variable"));
    };
    let kind = var.kind.text.as_slice();
    if is_part(kind, wanted) {
        return None;
    }
    Some(Fault {
        line: word.line,
        found: Said::Text(kind),
        wanted: Said::Text(wanted),
    })
}

fn args_fault<'a>(
    scope: &Scope<'_, 'a>,
    mut words: &'a [Word],
    mut kinds: ArgKinds<'a>,
) -> Option<Fault<'a>>
    ensures { told_by result
        ≡ spec.args_fault (levels scope.now) words.entry.now (arg_kinds kinds.entry) }
{
    while let [word, rest @ ..] = words {
        let (kind, more) = first(kinds)?;
        if let Some(fault) = arg_fault(scope, kind, word) {
            return Some(fault);
        }
        words = rest;
        kinds = more;
    }
    None
}

fn ask_fault<'a>(
    scope: &Scope<'_, 'a>,
    missing: &'a [u8],
    ask: &'a Ask,
    kinds: Option<ArgKinds<'a>>,
) -> Option<Fault<'a>>
    ensures { told_by result
        ≡ spec.ask_fault (levels scope.now) missing.now ask.now (kinds_found kinds.entry) }
{
    let Some(kinds) = kinds else {
        return Some(at_word(&ask.name, missing));
    };
    let wanted = count(kinds);
    let found = ask.args.len();
    if found != wanted {
        return Some(Fault {
            line: ask.name.line,
            found: Said::Count(found),
            wanted: Said::Count(wanted),
        });
    }
    args_fault(scope, ask.args.as_slice(), kinds)
}

pub fn query_fault<'a>(
    program: Program<'a>,
    scope: &Scope<'_, 'a>,
    ask: &'a Ask,
) -> Option<Fault<'a>>
    ensures { told_by result ≡ spec.query_fault (known_of program.entry) (levels scope.now)
        ask.now }
{
    let kinds = query_kinds(ask.name.text.as_slice(), program.lang);
    ask_fault(scope, b"query", ask, kinds)
}

pub fn predicate_fault<'a>(
    program: Program<'a>,
    scope: &Scope<'_, 'a>,
    ask: &'a Ask,
) -> Option<Fault<'a>>
    ensures { told_by result
        ≡ spec.predicate_fault (known_of program.entry) (levels scope.now) ask.now }
{
    let kinds = predicate_kinds(ask.name.text.as_slice(), program.items);
    ask_fault(scope, b"predicate", ask, kinds)
}
