ghost use Rattle.std.specs.Option.{option_copied};
ghost use Rattle.std.specs.Prelude.{◌≡◌, map};
ghost use Rattle.rf_rtree.specs.Kinds as spec;
ghost use Rattle.rf_rtree.specs.Tables.{row_shown};
ghost use Rattle.rf_kind.specs.Scopes.{row_found};

use rf_rtree::{Row, kinds};

/// The row of a word.
pub fn row_named(mut rows: &'static [Row], text: &[u8]) -> Option<&'static Row>
    ensures { row_found (option_copied result) ≡ spec.entry_named text.now
        (map row_shown rows.entry.now) }
{
    while let [row, rest @ ..] = rows {
        if row.name == text {
            return Some(row);
        }
        rows = rest;
    }
    None
}

pub fn is_among(text: &[u8], mut texts: &[&[u8]]) -> bool
    ensures { result ≡ spec.is_among text.now (map (λ other. other.now) texts.entry.now) }
{
    while let [other, rest @ ..] = texts {
        if *other == text {
            return true;
        }
        texts = rest;
    }
    false
}

pub fn is_kind(text: &[u8]) -> bool
    ensures { result ≡ spec.is_kind text.now }
{
    row_named(kinds(), text).is_some()
}

/// Whether a kind is the wanted one or part of it.
pub fn is_part(kind: &[u8], wanted: &[u8]) -> bool
    ensures { result ≡ spec.is_part kind.now wanted.now }
{
    if wanted == kind {
        return true;
    }
    match row_named(kinds(), wanted) {
        None => false,
        Some(row) => is_among(kind, row.kinds),
    }
}
