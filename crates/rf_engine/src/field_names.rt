ghost use Rattle.std.specs.Prelude.{◌≡◌, ◌≢◌, ◌-◌, ◌^◌, ◌<◌, ◌↔◌, All, AllPairs, Contains, IfOk, IsTrue, MatchOption, length};
ghost use Rattle.rf_engine.specs.ClassFile.{names_of};
ghost use Rattle.rf_engine.specs.FieldNames.{IsBound};
ghost use Rattle.rf_engine.specs.Seen.{class_seen};

use crate::class_file::{ClassParts, FieldParts};
use rf_text::{Memory, Names};
use std::alloc::Global;

/// The names of the fields in order, or `None` where two fields have one name (JLS 8.3).
pub(crate) fn declared(alloc: Global, class: &ClassParts<'_>) -> Result<Option<Names>, Memory>
    requires { length class.now.fields < 2 ^ 32 - 1 }
    ensures { IfOk result (λ found. MatchOption found
        (¬ AllPairs (λ a b. a ≢ b) (names_of (class_seen class.now)))
        (λ names. (names ≡ names_of (class_seen class.now)) × AllPairs (λ a b. a ≢ b) names)) }
{
    let mut names = Names::new(alloc);
    for field in class.fields.as_slice() {
        let count = names.len();
        let place = names.intern(alloc, field.name)?;
        if (place.0 as usize) < count {
            return Ok(None);
        }
    }
    Ok(Some(names))
}

pub(crate) fn is_declared(names: &Names, name: &[u8]) -> bool
    ensures { IsTrue result ↔ Contains names.now name.now }
{
    names.find(name).is_some()
}

/// Whether the initializer, if there is one, is one of the names (JLS 6.5.6.1).
fn is_bound(names: &Names, field: &FieldParts<'_>) -> bool
    ensures { IsTrue result ↔ IsBound names.now field.now }
{
    match field.initializer {
        Some(initializer) => is_declared(names, initializer.name),
        None => true,
    }
}

/// Whether each initializer is one of the names.
pub(crate) fn are_bound(names: &Names, fields: &[FieldParts<'_>]) -> bool
    ensures { IsTrue result ↔ All (IsBound names.now) fields.now }
{
    fields.iter().all(|field| is_bound(names, field))
}
