ghost use Rattle.std.specs.Prelude.{◌≡◌, ◌++◌, IfOk, OnOk, map, option_map};
ghost use Rattle.std.specs.List.{flat_map};
ghost use Rattle.rf_engine.specs.ClassFile.{initializer_bytes, field_bytes, class_bytes, renamed, renamed_initializer, renamed_field, renamed_class};
ghost use Rattle.rf_engine.specs.ClassReader.{BeginsWithFields, head_of, end_of};
ghost use Rattle.rf_engine.specs.Reading.{IsOnlyReading};
ghost use Rattle.rf_engine.specs.Seen.{initializer_seen, field_seen, class_seen, head_cut_seen, end_seen};

use crate::field::{before_word, parted_name, read_field};
use crate::scan::blanks;
use rf_text::{Bytes, List, Memory};
use std::alloc::Global;

/// The initializer of a field, cut from the file.
#[derive(Clone, Copy, Debug)]
pub(crate) struct InitializerParts<'a> {
    pub before: &'a [u8],
    pub gap: &'a [u8],
    pub name: &'a [u8],
}

/// A field, cut from the file.
#[derive(Clone, Copy, Debug)]
pub(crate) struct FieldParts<'a> {
    pub before: &'a [u8],
    pub gap: &'a [u8],
    pub name: &'a [u8],
    pub initializer: Option<InitializerParts<'a>>,
    pub after: &'a [u8],
}

/// A class, cut from the file.
#[derive(Drop)]
pub(crate) struct ClassParts<'a> {
    pub before: &'a [u8],
    pub gap: &'a [u8],
    pub name: &'a [u8],
    pub opening: &'a [u8],
    pub fields: List<FieldParts<'a>>,
    pub last_gap: &'a [u8],
    pub tail: &'a [u8],
}

/// A class up to its fields, and the rest of the text behind it.
#[derive(Clone, Copy, Debug)]
struct HeadCut<'a> {
    before: &'a [u8],
    gap: &'a [u8],
    name: &'a [u8],
    opening: &'a [u8],
    rest: &'a [u8],
}

/// The fields that the text begins with, and the rest of the text behind them.
#[derive(Drop)]
struct FieldsCut<'a> {
    fields: List<FieldParts<'a>>,
    rest: &'a [u8],
}

/// A class from behind its fields to the end of the file.
#[derive(Clone, Copy, Debug)]
struct EndParts<'a> {
    last_gap: &'a [u8],
    tail: &'a [u8],
}

#[tactic(auto, unfolding(crate::specs::ClassReader::head_of))]
fn read_head(text: &[u8]) -> Option<HeadCut<'_>>
    ensures { option_map head_cut_seen result ≡ head_of text.now }
{
    let class = before_word(text, b"class")?;
    let name = parted_name(class.rest)?;
    let brace = before_word(name.rest, b"{")?;
    Some(HeadCut {
        before: class.front,
        gap: name.gap,
        name: name.name,
        opening: brace.front,
        rest: brace.rest,
    })
}

fn read_fields<'a>(alloc: Global, text: &'a [u8]) -> Result<FieldsCut<'a>, Memory>
    ensures { IfOk result
        (λ cut. BeginsWithFields text.now (map field_seen cut.fields) cut.rest.now) }
{
    let mut fields = List::new(alloc);
    let mut rest = text;
    while let Some(cut) = read_field(rest) {
        fields.push(cut.field)?;
        rest = cut.rest;
    }
    Ok(FieldsCut { fields, rest })
}

#[tactic(auto, using(crate::proofs::PieceLemmas::scans), unfolding(crate::specs::ClassReader::end_of))]
fn read_end(text: &[u8]) -> Option<EndParts<'_>>
    ensures { option_map end_seen result ≡ end_of text.now }
{
    let brace = before_word(text, b"}")?;
    let tail = blanks(brace.rest);
    if !tail.rest.is_empty() {
        return None;
    }
    Some(EndParts {
        last_gap: brace.front,
        tail: tail.front,
    })
}

/// Cuts a file into the parts of a class of int fields, or answers `None` where it is no such file.
pub(crate) fn read_class<'a>(
    alloc: Global,
    file: &'a [u8],
) -> Result<Option<ClassParts<'a>>, Memory>
    ensures { IfOk result (λ found. IsOnlyReading file.now found) }
{
    let Some(head) = read_head(file) else {
        return Ok(None);
    };
    let body = read_fields(alloc, head.rest)?;
    let Some(end) = read_end(body.rest) else {
        return Ok(None);
    };
    Ok(Some(ClassParts {
        before: head.before,
        gap: head.gap,
        name: head.name,
        opening: head.opening,
        fields: body.fields,
        last_gap: end.last_gap,
        tail: end.tail,
    }))
}

/// `new` in place of the name `old`, and each other name as it is.
fn renamed<'a>(name: &'a [u8], old: &[u8], new: &'a [u8]) -> &'a [u8]
    ensures { result.now ≡ renamed old.now new.now name.now }
{
    if name == old { new } else { name }
}

fn write_initializer(
    out: &mut Bytes,
    initializer: &InitializerParts<'_>,
    old: &[u8],
    new: &[u8],
) -> Result<(), Memory>
    ensures { OnOk result (out.new ≡ out.old
        ++ initializer_bytes (Some (renamed_initializer old.now new.now
        (initializer_seen initializer.now)))) }
{
    out.extend(initializer.before)?;
    out.extend(b"=")?;
    out.extend(initializer.gap)?;
    out.extend(renamed(initializer.name, old, new))
}

fn write_field(
    out: &mut Bytes,
    field: &FieldParts<'_>,
    old: &[u8],
    new: &[u8],
) -> Result<(), Memory>
    ensures { OnOk result (out.new ≡ out.old
        ++ field_bytes (renamed_field old.now new.now (field_seen field.now))) }
{
    out.extend(field.before)?;
    out.extend(b"int")?;
    out.extend(field.gap)?;
    out.extend(renamed(field.name, old, new))?;
    if let Some(initializer) = &field.initializer {
        write_initializer(out, initializer, old, new)?;
    }
    out.extend(field.after)?;
    out.extend(b";")
}

fn write_fields(
    out: &mut Bytes,
    fields: &[FieldParts<'_>],
    old: &[u8],
    new: &[u8],
) -> Result<(), Memory>
    ensures { OnOk result (out.new ≡ out.old
        ++ flat_map field_bytes (map (renamed_field old.now new.now) (map field_seen fields.now))) }
{
    for field in fields {
        write_field(out, field, old, new)?;
    }
    Ok(())
}

/// The bytes of the class with the field `old` renamed to `new`.
pub(crate) fn write_renamed(
    alloc: Global,
    class: &ClassParts<'_>,
    old: &[u8],
    new: &[u8],
) -> Result<Bytes, Memory>
    ensures { IfOk result
        (λ text. text ≡ class_bytes (renamed_class old.now new.now (class_seen class.now))) }
{
    let mut out = Bytes::new(alloc);
    out.extend(class.before)?;
    out.extend(b"class")?;
    out.extend(class.gap)?;
    out.extend(class.name)?;
    out.extend(class.opening)?;
    out.extend(b"{")?;
    write_fields(&mut out, class.fields.as_slice(), old, new)?;
    out.extend(class.last_gap)?;
    out.extend(b"}")?;
    out.extend(class.tail)?;
    Ok(out)
}
