ghost use Rattle.std.specs.Prelude.{◌≡◌, IfOk};
ghost use Rattle.rf_engine.specs.ClassFile.{class_bytes, names_of};
ghost use Rattle.rf_engine.specs.FirstForm.{answer_of, IsAnswer};
ghost use Rattle.rf_engine.specs.FirstParts.{form_seen};
ghost use Rattle.rf_engine.specs.Seen.{class_seen};

use crate::class_file::write_renamed;
use crate::field_names::is_declared;
use crate::first_parts::{FirstFormParts, read_first_form};
use crate::report::{name_in_use, nothing_changed, one_changed};
use crate::request::RequestParts;
use rf_text::{Bytes, Memory};
use std::alloc::Global;

/// What the first form gives.
#[derive(Drop)]
pub enum FirstPath {
    /// The bytes of the changed file, and the lines to put.
    Changed { bytes: Bytes, report: Bytes },
    /// The new name is that of another field: the line to put.
    Refused { report: Bytes },
    /// Path, file and request are not of the first form.
    NotYet,
}

/// Answers what was read from the bytes of `file` and from a request.
fn answer(alloc: Global, file: &[u8], form: &FirstFormParts<'_>) -> Result<FirstPath, Memory>
    requires bytes { file.now ≡ class_bytes (class_seen form.now.file.class) }
    requires names { form.now.file.names ≡ names_of (class_seen form.now.file.class) }
    ensures { IfOk result (λ answer. answer ≡ answer_of (form_seen form.now)) }
{
    let RequestParts { old, new } = form.request;
    if new == old {
        let bytes = Bytes::from_slice(alloc, file)?;
        let report = nothing_changed(alloc)?;
        return Ok(FirstPath::Changed { bytes, report });
    }
    if is_declared(&form.file.names, new) {
        let report = name_in_use(alloc, form)?;
        return Ok(FirstPath::Refused { report });
    }
    let bytes = write_renamed(alloc, &form.file.class, old, new)?;
    let report = one_changed(alloc, form)?;
    Ok(FirstPath::Changed { bytes, report })
}

/// Renames a field of a class of int fields, where the file at `path` and the request are of that form.
/// All three are bytes.
pub fn first_path(
    alloc: Global,
    path: &[u8],
    file: &[u8],
    request: &[u8],
) -> Result<FirstPath, Memory>
    ensures { IfOk result (IsAnswer path.now file.now request.now) }
{
    match read_first_form(alloc, path, file, request)? {
        Some(form) => answer(alloc, file, &form),
        None => Ok(FirstPath::NotYet),
    }
}
