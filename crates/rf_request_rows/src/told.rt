//! A request as a text that no other request has.

use rf_request::{Options, ReqErr, Request, Sort, TargetLine, read_request};
use rf_text::{Bytes, Memory};
use std::alloc::Global;

/// The last digit of a line.
fn tell_line(line: u32, out: &mut Bytes) -> Result<(), Memory> {
    out.extend(&[b'/', b'0' + (line % 10) as u8])
}

fn sort_word(sort: Sort) -> &'static [u8] {
    match sort {
        Sort::Typ => b"type",
        Sort::Field => b"field",
        Sort::Method => b"method",
        Sort::Local => b"local",
        Sort::Ctor => b"ctor",
    }
}

fn tell_change(
    verb: &[u8],
    sort: Sort,
    name: &Bytes,
    value: &Bytes,
    line: u32,
    out: &mut Bytes,
) -> Result<(), Memory> {
    out.extend(verb)?;
    out.extend(b" ")?;
    out.extend(sort_word(sort))?;
    out.extend(b" ")?;
    out.extend(name.as_slice())?;
    out.extend(b" to ")?;
    out.extend(value.as_slice())?;
    tell_line(line, out)
}

fn tell_target(target: &TargetLine, out: &mut Bytes) -> Result<(), Memory> {
    match target {
        TargetLine::Rename {
            sort,
            name,
            value,
            line,
        } => tell_change(b"rename", *sort, name, value, *line, out),
        TargetLine::Move {
            sort,
            name,
            value,
            line,
        } => tell_change(b"move", *sort, name, value, *line, out),
        TargetLine::Pull {
            sort,
            name,
            value,
            line,
        } => tell_change(b"pull", *sort, name, value, *line, out),
        TargetLine::Access {
            sort,
            name,
            value,
            line,
        } => tell_change(b"access", *sort, name, value, *line, out),
    }
}

fn tell_if(holds: bool, word: &[u8], out: &mut Bytes) -> Result<(), Memory> {
    if holds {
        out.extend(word)?;
    }
    Ok(())
}

/// A number below ten million.
fn tell_number(number: u64, out: &mut Bytes) -> Result<(), Memory> {
    let mut begun = false;
    for weight in [1_000_000, 100_000, 10_000, 1000, 100, 10, 1] {
        let digit = number / weight % 10;
        if digit != 0 || weight == 1 {
            begun = true;
        }
        if begun {
            out.push(b'0' + digit as u8)?;
        }
    }
    Ok(())
}

fn tell_kept(options: &Options, out: &mut Bytes) -> Result<(), Memory> {
    for (sort, name, line) in options.keep.as_slice() {
        out.extend(b" keep ")?;
        out.extend(sort_word(*sort))?;
        out.extend(b" ")?;
        out.extend(name.as_slice())?;
        tell_line(*line, out)?;
    }
    for (file, line) in options.rules.as_slice() {
        out.extend(b" rules ")?;
        out.extend(file.as_slice())?;
        tell_line(*line, out)?;
    }
    Ok(())
}

fn tell_opened(options: &Options, out: &mut Bytes) -> Result<(), Memory> {
    out.extend(b" [")?;
    tell_if(options.names, b" names", out)?;
    tell_if(options.access, b" access", out)?;
    tell_if(options.owners, b" owners", out)?;
    tell_if(options.imports, b" imports", out)?;
    out.extend(b" ] (")?;
    for spare in options.spares.as_slice() {
        out.extend(b" ")?;
        out.extend(spare.as_slice())?;
    }
    out.extend(b" ) ")
}

fn request_told(alloc: Global, request: &Request) -> Result<Bytes, Memory> {
    let mut out = Bytes::new(alloc);
    tell_target(&request.target, &mut out)?;
    tell_opened(&request.options, &mut out)?;
    tell_number(request.decisions, &mut out)?;
    tell_kept(&request.options, &mut out)?;
    Ok(out)
}

/// A text, and what it asks for.
pub(crate) type Case = (&'static [u8], &'static [u8]);

fn reads(alloc: Global, text: &[u8], told: &[u8]) -> Result<bool, ReqErr> {
    if text.len() > 1000 {
        return Ok(false);
    }
    let request = read_request(alloc, text)?;
    let found = request_told(alloc, &request)?;
    Ok(found.as_slice() == told)
}

pub(crate) fn all_read(alloc: Global, cases: &[Case]) -> bool {
    for (text, told) in cases {
        if !matches!(reads(alloc, text, told), Ok(true)) {
            return false;
        }
    }
    true
}
