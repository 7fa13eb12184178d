//! Marks as texts: `.` for nothing, `_` for what stands before the last identifier of a type's name, and a word for each
//! other mark, with its distance behind it.

use rf_jdecl::unit;
use rf_jexpr::ParseErr;
use rf_jlex::{LexErr, lex};
use rf_jtree::Unit;
use rf_junits::unit_walk;
use rf_jview::{Invocation, Mark, Opening};
use rf_text::{Bytes, List, Memory};
use std::alloc::Global;

fn invocation_word(invocation: Invocation) -> &'static str {
    match invocation {
        Invocation::Method => "call",
        Invocation::Creation => "new",
        Invocation::Ctor => "this",
    }
}

fn opening_word(opening: Opening) -> &'static str {
    match opening {
        Opening::Block => "open",
        Opening::Initializer => "init",
        Opening::ImplicitSuper => "super",
    }
}

fn word(mark: Mark) -> &'static str {
    match mark {
        Mark::Plain => ".",
        Mark::Front => "_",
        Mark::TypeName => "T",
        Mark::Part(_) => "part",
        Mark::Name(_) => "name",
        Mark::FieldAccess => "access",
        Mark::Invokes(invocation, _) => invocation_word(invocation),
        Mark::Type => "type",
        Mark::Field => "field",
        Mark::NextField => "next",
        Mark::Method => "method",
        Mark::Ctor => "ctor",
        Mark::DefaultCtor => "default",
        Mark::Opens(opening, _) => opening_word(opening),
        Mark::Local(_) => "local",
        Mark::Ahead(_) => "ahead",
    }
}

fn distance(mark: Mark) -> Option<u32> {
    match mark {
        Mark::Part(back) | Mark::Name(back) | Mark::Local(back) | Mark::Ahead(back) => Some(back),
        Mark::Invokes(_, back) | Mark::Opens(_, back) => Some(back),
        _ => None,
    }
}

fn put_mark(alloc: Global, text: &mut Bytes, mark: Mark) -> Result<(), Memory> {
    if !text.as_slice().is_empty() {
        text.push(b' ')?;
    }
    text.extend(word(mark).as_bytes())?;
    match distance(mark) {
        Some(back) => {
            let number = format!(in alloc; "{back}")?;
            text.extend(number.as_bytes())
        }
        None => Ok(()),
    }
}

fn told(alloc: Global, marks: &[Mark]) -> Result<Bytes, Memory> {
    let mut text = Bytes::new(alloc);
    for mark in marks {
        put_mark(alloc, &mut text, *mark)?;
    }
    Ok(text)
}

fn marks_of(alloc: Global, file: &Unit) -> Result<Bytes, Memory> {
    let mut marks = List::new(alloc);
    unit_walk(alloc, file, &mut marks)?;
    told(alloc, marks.as_slice())
}

/// The marks of the file that is this text, or `none` where it is no file.
pub(crate) fn file_told(alloc: Global, text: &str) -> Result<Bytes, Memory> {
    let toks = match lex(alloc, text.as_bytes()) {
        Ok(toks) => toks,
        Err(LexErr::Fault { .. }) => return Bytes::from_slice(alloc, b"none"),
        Err(LexErr::Memory) => return Err(Memory),
    };
    match unit(alloc, &toks) {
        Ok(file) => marks_of(alloc, &file),
        Err(ParseErr::NoTree) => Bytes::from_slice(alloc, b"none"),
        Err(ParseErr::Memory) => Err(Memory),
    }
}
