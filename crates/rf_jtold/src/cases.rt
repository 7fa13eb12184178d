//! One case: its text, what is wanted, and what came.

use crate::readers;
use rf_jwords::cut;
use rf_text::{Bytes, Memory};
use std::alloc::Global;
use std::io;
use std::io::{ErrorKind, Print};

/// The bytes before the first ` => `, and those behind it.
fn halves(line: &[u8]) -> Option<(&[u8], &[u8])> {
    for at in 0..line.len() {
        if let [b' ', b'=', b'>', b' ', behind @ ..] = &line[at..] {
            return Some((&line[..at], behind));
        }
    }
    None
}

/// The number that these digits write.
fn number(digits: &[u8]) -> u32 {
    let mut number = 0u32;
    for digit in digits {
        number = number.wrapping_mul(10).wrapping_add((digit & 15) as u32);
    }
    number
}

/// What comes of the text of a case, whose first word says what it is read as, and whose second one in which room.
fn found(alloc: Global, text: &[u8]) -> Result<Bytes, Memory> {
    let (what, rest) = cut(text);
    let (room, text) = cut(rest);
    let room = number(room);
    match what {
        b"expr" => readers::expr(alloc, room, text),
        b"end" => readers::end(alloc, room, text),
        b"block" => readers::block(alloc, room, text),
        b"file" => readers::file(alloc, rest),
        b"is_block" => readers::is_some(alloc, readers::block(alloc, room, text)?),
        b"is_file" => readers::is_some(alloc, readers::file(alloc, rest)?),
        _ => Bytes::from_slice(alloc, b"no such case"),
    }
}

fn write_other<R: Print>(rt: &R, line: &[u8], found: &[u8]) -> io::Result<()> {
    rt.write_all(line)?;
    rt.write_all(b"\n    but found ")?;
    rt.write_all(found)?;
    rt.write_all(b"\n")
}

/// Whether the line is a case. Where it is and something else than the wanted is found, both are written.
pub(crate) fn judge<R: Print>(rt: &R, alloc: Global, line: &[u8]) -> io::Result<bool> {
    let Some((text, wanted)) = halves(line) else {
        return Ok(false);
    };
    let Ok(found) = found(alloc, text) else {
        return Err(io::Error::from(ErrorKind::OutOfMemory));
    };
    if found.as_slice() != wanted {
        write_other(rt, line, found.as_slice())?;
    }
    Ok(true)
}
