ghost use Rattle.std.specs.Prelude.{◌≡◌, ◌≢◌, ◌-◌, ◌^◌, ◌<◌, [], ◌∷◌, ◌++◌, AllPairs, Contains, IfOk, IfSome, MatchOption, OnErr, Some, length, slice_get};
ghost use Rattle.indexmap.specs.IndexSet.{index_set_len};
ghost use Rattle.rf_text.specs.Names.{Interned, texts_of};

use crate::{Memory, NameId};
use indexmap::IndexSet;
use std::alloc::Global;
use std::marker::Model;

/// Distinct texts, each with its place from 0 in the order in which they came.
/// A text is found in constant time.
#[derive(Drop)]
pub struct Names {
    texts: IndexSet<Vec<u8>>,
}

impl Model for Names {
    ghost use Rattle.std.specs.Prelude.{List, ℕ};

    ghost Value = { List (List ℕ) };

    ghost use Rattle.rf_text.specs.Names.{texts_of};

    ghost view = { λ names. texts_of names.texts.keys };

    ghost use Rattle.std.specs.Prelude.{◌<◌, ◌^◌, length};

    ghost invariant = { λ names. length names.texts.keys < 2 ^ 32 };
}

/// The place of the text among the keys.
fn place_of(texts: &IndexSet<Vec<u8>>, text: &[u8]) -> Option<usize>
    ensures { MatchOption result
        (¬ Contains (texts_of texts.now.keys) text.now)
        (λ place. slice_get (texts_of texts.now.keys) place ≡ Some text.now) }
{
    texts.get_index_of(text)
}

/// Puts a text that isn't there behind the last key.
fn add(texts: &mut IndexSet<Vec<u8>>, alloc: Global, text: &[u8]) -> Result<usize, Memory>
    requires { ¬ Contains (texts_of texts.old.keys) text.now }
    ensures ok { IfOk result (λ place. place ≡ length (texts_of texts.old.keys)) }
    ensures texts { IfOk result
        (λ _. texts_of texts.new.keys ≡ texts_of texts.old.keys ++ text.now ∷ []) }
    ensures err { OnErr result (texts_of texts.new.keys ≡ texts_of texts.old.keys) }
{
    let (place, _) = texts.insert_full(Vec::from_slice(alloc, text)?)?;
    Ok(place)
}

impl Names {
    pub fn new(alloc: Global) -> Names
        ensures { result ≡ [] }
    {
        Names {
            texts: IndexSet::new(alloc),
        }
    }

    /// How many texts there are.
    pub fn len(&self) -> usize
        ensures len { result ≡ length self.now }
        ensures small { result < 2 ^ 32 }
    {
        self.texts.len()
    }

    /// The place of the text, or `None` where it isn't there.
    pub fn find(&self, text: &[u8]) -> Option<NameId>
        ensures { MatchOption result
            (¬ Contains self.now text.now)
            (λ place. slice_get self.now place.0 ≡ Some text.now) }
    {
        let place = place_of(&self.texts, text)?;
        Some(NameId(place as u32))
    }

    /// The place of the text, which is put at the end where it isn't there yet.
    pub fn intern(&mut self, alloc: Global, text: &[u8]) -> Result<NameId, Memory>
        requires { length self.old < 2 ^ 32 - 1 }
        ensures ok { IfOk result (λ place. Interned self.old text.now place.0 self.new) }
        ensures err { OnErr result (self.new ≡ self.old) }
    {
        if let Some(place) = place_of(&self.texts, text) {
            return Ok(NameId(place as u32));
        }
        let place = add(&mut self.texts, alloc, text)?;
        Ok(NameId(place as u32))
    }

    /// The text at a place. It takes no memory.
    pub fn text(&self, place: NameId) -> &[u8]
        requires { place.0 < length self.now }
        ensures { Some result.now ≡ slice_get self.now place.0 }
    {
        self.texts.as_slice()[place.0 as usize].as_slice()
    }

    /// The same texts at the same places.
    pub fn copy(&self, alloc: Global) -> Result<Names, Memory>
        ensures { IfOk result (λ names. names ≡ self.now) }
    {
        let mut texts = IndexSet::new(alloc);
        for text in self.texts.as_slice() {
            add(&mut texts, alloc, text.as_slice())?;
        }
        Ok(Names { texts })
    }
}

/// No two places of a `Names` have the same text.
pub fn names_are_distinct(names: &Names)
    ensures { AllPairs (λ a b. a ≢ b) names.now }
{
    let _ = names.texts.len();
}
