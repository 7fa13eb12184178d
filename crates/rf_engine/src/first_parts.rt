ghost use Rattle.std.specs.Prelude.{ℕ, List, ◌↔◌, IfOk, IsTrue, MatchOption};
ghost use Rattle.rf_engine.specs.ClassFile.{ClassFile};
ghost use Rattle.rf_engine.specs.FirstForm.{FirstForm, IsForm};
ghost use Rattle.rf_engine.specs.FirstParts.{IsPathOf, IsFormFile, IsFileReading, IsFormReading};

use crate::class_file::{ClassParts, read_class};
use crate::field_names::{are_bound, declared, is_declared};
use crate::request::{RequestParts, read_request};
use crate::scan::after;
use rf_text::{Memory, Names};
use std::alloc::Global;

/// The most bytes that a file may have.
const FILE_LIMIT: usize = 1_048_576;

/// The most bytes that a request may have.
const REQUEST_LIMIT: usize = 65_536;

/// A file of the first form: its class, and the names of the fields.
#[derive(Drop)]
pub(crate) struct FileParts<'a> {
    pub class: ClassParts<'a>,
    pub names: Names,
}

/// A file and a request of the first form.
#[derive(Drop)]
pub(crate) struct FirstFormParts<'a> {
    pub file: FileParts<'a>,
    pub request: RequestParts<'a>,
}

fn is_path_of(path: &[u8], class: &[u8]) -> bool
    ensures { IsTrue result ↔ IsPathOf path.now class.now }
{
    match after(path, class) {
        Some(rest) => rest == b".java".as_slice() && class != b"java".as_slice(),
        None => false,
    }
}

/// Cuts the file at the path into parts, or answers `None` where the two are not of the first form.
fn read_file<'a>(
    alloc: Global,
    path: &[u8],
    file: &'a [u8],
) -> Result<Option<FileParts<'a>>, Memory>
    ensures { IfOk result (λ found. MatchOption found
        ((class : ClassFile) → ¬ IsFormFile class path.now file.now)
        (λ parts. IsFileReading parts path.now file.now)) }
{
    if file.len() > FILE_LIMIT {
        return Ok(None);
    }
    let Some(class) = read_class(alloc, file)? else {
        return Ok(None);
    };
    if !is_path_of(path, class.name) {
        return Ok(None);
    }
    let Some(names) = declared(alloc, &class)? else {
        return Ok(None);
    };
    if !are_bound(&names, class.fields.as_slice()) {
        return Ok(None);
    }
    Ok(Some(FileParts { class, names }))
}

/// Cuts file and request into parts, or answers `None` where path, file and request are not of the first form.
pub(crate) fn read_first_form<'a>(
    alloc: Global,
    path: &[u8],
    file: &'a [u8],
    request: &'a [u8],
) -> Result<Option<FirstFormParts<'a>>, Memory>
    ensures { IfOk result (λ found. MatchOption found
        ((form : FirstForm) → ¬ IsForm form path.now file.now request.now)
        (λ parts. IsFormReading parts path.now file.now request.now)) }
{
    if request.len() > REQUEST_LIMIT {
        return Ok(None);
    }
    let Some(file) = read_file(alloc, path, file)? else {
        return Ok(None);
    };
    let Some(request) = read_request(request, file.class.name) else {
        return Ok(None);
    };
    if !is_declared(&file.names, request.old) {
        return Ok(None);
    }
    Ok(Some(FirstFormParts { file, request }))
}
