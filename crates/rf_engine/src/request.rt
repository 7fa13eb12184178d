ghost use Rattle.std.specs.Prelude.{◌≡◌, ◌≢◌, ℕ, List, ◌↔◌, IsTrue, MatchOption};
ghost use Rattle.rf_engine.specs.Request.{renames_field_of, IsLineEnd, AreNames, AreOnlyNames, IsRequest, IsOnlyRequest};

use crate::scan::{after, name};

/// The names in a request to rename a field, cut from it.
#[derive(Clone, Copy, Debug)]
pub(crate) struct RequestParts<'a> {
    pub old: &'a [u8],
    pub new: &'a [u8],
}

/// What follows `rename field` and the class in a request to rename one of its fields.
fn after_class<'a>(request: &'a [u8], class: &[u8]) -> Option<&'a [u8]>
    ensures { MatchOption result
        ((rest : List ℕ) → request.now ≢ renames_field_of class.now rest)
        (λ rest. request.now ≡ renames_field_of class.now rest.now) }
{
    let rest = after(request, b"rename field ")?;
    let rest = after(rest, class)?;
    after(rest, b".")
}

fn is_line_end(text: &[u8]) -> bool
    ensures { IsTrue result ↔ IsLineEnd text.now }
{
    text.is_empty() || text == b"\n".as_slice()
}

/// Cuts the names from the end of a request, `f to g`.
fn read_names(text: &[u8]) -> Option<RequestParts<'_>>
    ensures { MatchOption result
        ((old new : List ℕ) → ¬ AreNames text.now old new)
        (λ names. AreOnlyNames text.now names.old.now names.new.now) }
{
    let old = name(text)?;
    let rest = after(old.rest, b" to ")?;
    let new = name(rest)?;
    if !is_line_end(new.rest) {
        return None;
    }
    Some(RequestParts {
        old: old.front,
        new: new.front,
    })
}

/// Cuts the names from a request to rename a field of the class, or answers `None` where it is no such request.
pub(crate) fn read_request<'a>(request: &'a [u8], class: &[u8]) -> Option<RequestParts<'a>>
    ensures { MatchOption result
        ((old new : List ℕ) → ¬ IsRequest request.now class.now old new)
        (λ names. IsOnlyRequest request.now class.now names.old.now names.new.now) }
{
    read_names(after_class(request, class)?)
}
