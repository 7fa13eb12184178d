ghost use Rattle.std.specs.Prelude.{◌≡◌, ◌<◌, length, IfOk};
ghost use Rattle.rf_rlex.specs.Lexed as spec;

use crate::fronts::{Front, first_piece};
use crate::tokens::{Placed, Tok};
use rf_text::{List, Memory};
use std::alloc::Global;

fn line_behind(line: u32, first: u8) -> u32
    requires { line < 4294967295 }
    ensures { result ≡ spec.line_behind line first }
{
    if first == b'\n' { line + 1 } else { line }
}

/// The tokens of a rule file, up to the first place at which none begins, where there is one: there stands `Bad`.
pub fn lex(alloc: Global, bytes: &[u8]) -> Result<List<Placed>, Memory>
    requires { length bytes.now < 4294967295 }
    ensures { IfOk result (λ toks. toks ≡ spec.tokens_of bytes.now) }
{
    let mut toks = List::new(alloc);
    let mut line: u32 = 1;
    let mut rest = bytes;
    while let [first, more @ ..] = rest {
        match first_piece(alloc, rest)? {
            Front::Skip(length) => {
                line = line_behind(line, *first);
                rest = more.split_at(length).1;
            }
            Front::Token(tok, length) => {
                toks.push(Placed { tok, line })?;
                rest = more.split_at(length).1;
            }
            Front::Nothing => {
                toks.push(Placed {
                    tok: Tok::Bad,
                    line,
                })?;
                return Ok(toks);
            }
        }
    }
    Ok(toks)
}
