//! What the parsers make of a text, told as a text: `none` where they read nothing. Trees are left to the system: letting
//! go of them is proved anew in each crate that does it, form by form, and the program ends soon.

use crate::decls::unit_told;
use crate::exprs::told;
use crate::stmts::stmt_told;
use rf_jdecl::unit;
use rf_jexpr::{ParseErr, boxed_expr};
use rf_jstmt::block as parsed_block;
use rf_jtree::Toks;
use rf_jwords::tokens;
use rf_text::{Bytes, Memory};
use std::alloc::Global;
use std::mem::forget;

/// What is told where there is no tree.
fn untold(alloc: Global, error: ParseErr) -> Result<Bytes, Memory> {
    match error {
        ParseErr::NoTree => Bytes::from_slice(alloc, b"none"),
        ParseErr::Memory => Err(Memory),
    }
}

/// The expression that the text begins with in this room.
pub(crate) fn expr(alloc: Global, room: u32, text: &[u8]) -> Result<Bytes, Memory> {
    let toks = tokens(alloc, text)?;
    let read = boxed_expr(alloc, toks.as_slice(), 0, room);
    let text = match &read {
        Ok(found) => told(alloc, &*found.tree),
        Err(error) => untold(alloc, *error),
    };
    forget(read);
    text
}

fn two_numbers(alloc: Global, one: usize, other: usize) -> Result<Bytes, Memory> {
    match format!(in alloc; "{one} {other}") {
        Ok(text) => Bytes::from_slice(alloc, text.as_bytes()),
        Err(_) => Err(Memory),
    }
}

/// The number of the token behind the expression that the text begins with, and how deep the expression is.
pub(crate) fn end(alloc: Global, room: u32, text: &[u8]) -> Result<Bytes, Memory> {
    let toks = tokens(alloc, text)?;
    let read = boxed_expr(alloc, toks.as_slice(), 0, room);
    let text = match &read {
        Ok(found) => two_numbers(alloc, found.end, found.depth),
        Err(error) => untold(alloc, *error),
    };
    forget(read);
    text
}

/// The block that the text begins with in this room.
pub(crate) fn block(alloc: Global, room: u32, text: &[u8]) -> Result<Bytes, Memory> {
    let toks = tokens(alloc, text)?;
    let read = parsed_block(alloc, toks.as_slice(), 0, room);
    let text = match &read {
        Ok((block, _end)) => stmt_told(alloc, block),
        Err(error) => untold(alloc, *error),
    };
    forget(read);
    text
}

/// The file that the text is.
pub(crate) fn file(alloc: Global, text: &[u8]) -> Result<Bytes, Memory> {
    let toks = Toks {
        list: tokens(alloc, text)?,
        tail: Bytes::new(alloc),
    };
    let read = unit(alloc, &toks);
    let text = match &read {
        Ok(unit) => unit_told(alloc, unit),
        Err(error) => untold(alloc, *error),
    };
    forget(read);
    text
}

/// `some` in place of what is told, where it isn't `none`.
pub(crate) fn is_some(alloc: Global, told: Bytes) -> Result<Bytes, Memory> {
    match told.as_slice() {
        b"none" => Ok(told),
        _ => Bytes::from_slice(alloc, b"some"),
    }
}
