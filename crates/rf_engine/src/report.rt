ghost use Rattle.std.specs.Prelude.{◌≡◌, IfOk};
ghost use Rattle.std.specs.List.{flat_map};
ghost use Rattle.rf_engine.specs.FirstForm.{nothing_changed, one_changed, name_in_use};
ghost use Rattle.rf_engine.specs.FirstParts.{form_seen};

use crate::first_parts::FirstFormParts;
use crate::request::RequestParts;
use rf_text::{Bytes, Memory};
use std::alloc::Global;

/// The texts, one behind the other.
fn joined(alloc: Global, texts: &[&[u8]]) -> Result<Bytes, Memory>
    ensures { IfOk result (λ all. all ≡ flat_map (λ text. text.now) texts.now) }
{
    let mut all = Bytes::new(alloc);
    for text in texts {
        all.extend(text)?;
    }
    Ok(all)
}

/// The line for a request that changes nothing.
pub(crate) fn nothing_changed(alloc: Global) -> Result<Bytes, Memory>
    ensures { IfOk result (λ text. text ≡ nothing_changed) }
{
    Bytes::from_slice(alloc, b"ok 0\n")
}

/// The lines for a field that has got its new name.
pub(crate) fn one_changed(alloc: Global, form: &FirstFormParts<'_>) -> Result<Bytes, Memory>
    ensures { IfOk result (λ text. text ≡ one_changed (form_seen form.now)) }
{
    let class = form.file.class.name;
    let RequestParts { old, new } = form.request;
    joined(
        alloc,
        &[
            b"ok 1\nname field ",
            class,
            b".",
            old,
            b" ",
            old,
            b" ",
            new,
            b"\n",
        ],
    )
}

/// The line for a new name that is in use by another field.
pub(crate) fn name_in_use(alloc: Global, form: &FirstFormParts<'_>) -> Result<Bytes, Memory>
    ensures { IfOk result (λ text. text ≡ name_in_use (form_seen form.now)) }
{
    let class = form.file.class.name;
    let RequestParts { old, new } = form.request;
    joined(
        alloc,
        &[b"refused ", class, b".", old, b" ", class, b".", new, b"\n"],
    )
}
