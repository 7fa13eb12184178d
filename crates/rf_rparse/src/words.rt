//! Tokens that are words.
ghost use Rattle.std.specs.Prelude.{◌≡◌, IfOk};
ghost use Rattle.rf_rtree.specs.Grammar.{word};
ghost use Rattle.rf_rparse.specs.Words as spec;
ghost use Rattle.rf_rparse.specs.Words.{shown};

use rf_rlex::{Placed, Tok};
use rf_rtree::{Comp, Word};
use rf_text::{Bytes, Memory};
use std::alloc::Global;

pub fn word_at(alloc: Global, text: &Bytes, line: u32) -> Result<Word, Memory>
    ensures { IfOk result (λ made. made ≡ word text.now line) }
{
    let text = text.copy(alloc)?;
    Ok(Word { text, line })
}

/// The word of a name.
pub fn name_in(alloc: Global, tok: &Placed) -> Result<Option<Word>, Memory>
    ensures { IfOk result (λ name. name ≡ spec.name_in (shown tok.now)) }
{
    match &tok.tok {
        Tok::Name(text) => {
            let name = word_at(alloc, text, tok.line)?;
            Ok(Some(name))
        }
        _ => Ok(None),
    }
}

fn is_package(text: &Bytes) -> bool
    ensures { result ≡ spec.is_package text.now }
{
    text.as_slice() == b"package".as_slice()
}

/// The word of a property: a name or `package`.
pub fn prop_in(alloc: Global, tok: &Placed) -> Result<Option<Word>, Memory>
    ensures { IfOk result (λ name. name ≡ spec.prop_in (shown tok.now)) }
{
    match &tok.tok {
        Tok::Name(text) => {
            let name = word_at(alloc, text, tok.line)?;
            Ok(Some(name))
        }
        Tok::Access(text) => {
            if !is_package(text) {
                return Ok(None);
            }
            let name = word_at(alloc, text, tok.line)?;
            Ok(Some(name))
        }
        _ => Ok(None),
    }
}

/// The comparison that a sign stands for.
pub fn comp_in(tok: &Placed) -> Option<Comp>
    ensures { result ≡ spec.comp_in (shown tok.now) }
{
    match &tok.tok {
        Tok::Equal => Some(Comp::Equal),
        Tok::Unequal => Some(Comp::Unequal),
        Tok::AtMost => Some(Comp::AtMost),
        _ => None,
    }
}
