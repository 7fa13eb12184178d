//! The forms of single words.
ghost use Rattle.std.specs.Prelude.{◌↔◌, ◌≡◌, ◌≤◌, ◌<◌, [], ◌∷◌, All, IsTrue, MatchOption, length};
ghost use Rattle.std.specs.List.{prefix_len, slice_split};
ghost use Rattle.std.specs.Option.{option_map_or};
ghost use Rattle.rf_jtree.specs.Tokens.{IsToken};
ghost use Rattle.rf_jtree.specs.declared.tokens.TokKind.TheVariants as kind;
ghost use Rattle.rf_request.specs.Forms.{is_dot, is_in_part, IsPackage, IsAccess, IsAllowed};

use rf_jtree::is_identifier;
use rf_text::Bytes;

fn part_length(text: &[u8]) -> usize
    ensures value { result ≡ prefix_len is_in_part text.now }
    ensures within { result ≤ length text.now }
{
    text.iter().take_while(|byte| **byte != b'.').count()
}

/// What stands before the first dot, and what stands behind it, if there is one.
fn first_part(text: &[u8]) -> (&[u8], Option<&[u8]>)
    ensures parts { slice_split is_dot text.now
        ≡ result.0.now ∷ option_map_or (λ rest. slice_split is_dot rest.now) result.1 [] }
    ensures shorter { MatchOption result.1 (Unit {0})
        (λ rest. length rest.now < length text.now) }
{
    let (part, behind) = text.split_at(part_length(text));
    match behind {
        [] => (part, None),
        [_, rest @ ..] => (part, Some(rest)),
    }
}

/// Whether a word is identifiers with dots.
pub(crate) fn is_package(word: &[u8]) -> bool
    ensures { IsTrue result ↔ IsPackage word.now }
{
    let mut rest = word;
    loop {
        let (part, behind) = first_part(rest);
        if !is_identifier(part) {
            return false;
        }
        match behind {
            Some(more) => rest = more,
            None => return true,
        }
    }
}

#[tactic(auto, unfolding(crate::specs::Forms::IsAccess))]
pub(crate) fn is_access(word: &[u8]) -> bool
    ensures { IsTrue result ↔ IsAccess word.now }
{
    if word == b"private".as_slice() {
        return true;
    }
    if word == b"package".as_slice() {
        return true;
    }
    if word == b"protected".as_slice() {
        return true;
    }
    word == b"public".as_slice()
}

#[tactic(auto, unfolding(crate::specs::Forms::IsAllowed))]
fn is_allowed(word: &[u8]) -> bool
    ensures { IsTrue result ↔ IsAllowed word.now }
{
    if word == b"names".as_slice() {
        return true;
    }
    if word == b"access".as_slice() {
        return true;
    }
    if word == b"owners".as_slice() {
        return true;
    }
    word == b"imports".as_slice()
}

pub(crate) fn are_allowed(words: &[Bytes]) -> bool
    ensures { IsTrue result ↔ All IsAllowed words.now }
{
    for word in words {
        if !is_allowed(word.as_slice()) {
            return false;
        }
    }
    true
}

pub(crate) fn are_identifiers(words: &[Bytes]) -> bool
    ensures { IsTrue result ↔ All (IsToken kind.Ident) words.now }
{
    for word in words {
        if !is_identifier(word.as_slice()) {
            return false;
        }
    }
    true
}
