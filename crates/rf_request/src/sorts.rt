ghost use Rattle.std.specs.Prelude.{◌≡◌, ◌≢◌, MatchOption};
ghost use Rattle.rf_request.specs.declared.sorts.Sort.{Sort as SortOf};
ghost use Rattle.rf_request.specs.Sorts.{sort_word};

/// The sort of an element that a request names.
#[derive(Clone, Copy, Debug, PartialEq, Eq)]
pub enum Sort {
    Typ,
    Field,
    Method,
    Local,
    Ctor,
}

pub(crate) fn sort_named(word: &[u8]) -> Option<Sort>
    ensures { MatchOption result
        ((sort : SortOf) → word.now ≢ sort_word sort)
        (λ sort. word.now ≡ sort_word sort) }
{
    if word == b"type".as_slice() {
        return Some(Sort::Typ);
    }
    if word == b"field".as_slice() {
        return Some(Sort::Field);
    }
    if word == b"method".as_slice() {
        return Some(Sort::Method);
    }
    if word == b"local".as_slice() {
        return Some(Sort::Local);
    }
    if word == b"ctor".as_slice() {
        return Some(Sort::Ctor);
    }
    None
}
