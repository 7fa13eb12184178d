ghost use Rattle.std.specs.Prelude.{◌≡◌, option_map, codes};
ghost use Rattle.rf_engine.specs.ClassReader.{before_word, gap_of, parted_name, initializer_of, field_of};
ghost use Rattle.rf_engine.specs.Seen.{cut_seen, name_cut_seen, initializer_cut_seen, field_cut_seen};

use crate::class_file::{FieldParts, InitializerParts};
use crate::scan::{Cut, after, blanks, name};

/// A name with the gap before it, and the rest of the text behind it.
#[derive(Clone, Copy, Debug)]
pub(crate) struct NameCut<'a> {
    pub gap: &'a [u8],
    pub name: &'a [u8],
    pub rest: &'a [u8],
}

/// A field, and the rest of the text behind it.
#[derive(Clone, Copy, Debug)]
pub(crate) struct FieldCut<'a> {
    pub field: FieldParts<'a>,
    pub rest: &'a [u8],
}

/// The initializer of a field, if it has one, and the rest of the text behind it.
#[derive(Clone, Copy, Debug)]
struct InitializerCut<'a> {
    initializer: Option<InitializerParts<'a>>,
    rest: &'a [u8],
}

/// Cuts off `word` and the blanks before it.
#[tactic(auto, using(crate::proofs::PieceLemmas::scans), unfolding(crate::specs::ClassReader::before_word))]
pub(crate) fn before_word<'a>(text: &'a [u8], word: &[u8]) -> Option<Cut<'a>>
    ensures { option_map cut_seen result ≡ before_word word.now text.now }
{
    let before = blanks(text);
    let rest = after(before.rest, word)?;
    Some(Cut {
        front: before.front,
        rest,
    })
}

#[tactic(auto, using(crate::proofs::PieceLemmas::scans), unfolding(crate::specs::ClassReader::gap_of))]
fn gap(text: &[u8]) -> Option<Cut<'_>>
    ensures { option_map cut_seen result ≡ gap_of text.now }
{
    let cut = blanks(text);
    if cut.front.is_empty() {
        None
    } else {
        Some(cut)
    }
}

/// Cuts off a name and the gap before it.
#[tactic(auto, using(crate::proofs::PieceLemmas::scans), unfolding(crate::specs::ClassReader::parted_name))]
pub(crate) fn parted_name(text: &[u8]) -> Option<NameCut<'_>>
    ensures { option_map name_cut_seen result ≡ parted_name text.now }
{
    let gap = gap(text)?;
    let name = name(gap.rest)?;
    Some(NameCut {
        gap: gap.front,
        name: name.front,
        rest: name.rest,
    })
}

#[tactic(auto, using(crate::proofs::PieceLemmas::scans), unfolding(crate::specs::ClassReader::initializer_of, crate::specs::ClassReader::initializer_behind))]
fn read_initializer(text: &[u8]) -> Option<InitializerCut<'_>>
    ensures { option_map initializer_cut_seen result ≡ initializer_of text.now }
{
    let Some(equals) = before_word(text, b"=") else {
        return Some(InitializerCut {
            initializer: None,
            rest: text,
        });
    };
    let gap = blanks(equals.rest);
    let name = name(gap.rest)?;
    let initializer = InitializerParts {
        before: equals.front,
        gap: gap.front,
        name: name.front,
    };
    Some(InitializerCut {
        initializer: Some(initializer),
        rest: name.rest,
    })
}

/// Cuts off the field that the text begins with.
#[tactic(auto, unfolding(crate::specs::ClassReader::field_of))]
pub(crate) fn read_field(text: &[u8]) -> Option<FieldCut<'_>>
    ensures { option_map field_cut_seen result ≡ field_of text.now }
{
    let int = before_word(text, b"int")?;
    let name = parted_name(int.rest)?;
    let initializer = read_initializer(name.rest)?;
    let end = before_word(initializer.rest, b";")?;
    let field = FieldParts {
        before: int.front,
        gap: name.gap,
        name: name.name,
        initializer: initializer.initializer,
        after: end.front,
    };
    Some(FieldCut {
        field,
        rest: end.rest,
    })
}
