//! Copies of tokens, and the text of a dotted name.

use rf_jtree::{Dotted, Name, Tok, TokKind, Toks, operator};
use rf_text::{Bytes, List, Memory};
use std::alloc::Global;
use std::test::Fail;

fn tok(alloc: Global, lead: &[u8], text: &[u8]) -> Result<Tok, Memory> {
    let kind = match operator(text) {
        Some(op) => TokKind::Op(op),
        None => TokKind::Ident,
    };
    let lead = Bytes::from_slice(alloc, lead)?;
    let text = Bytes::from_slice(alloc, text)?;
    Ok(Tok { kind, lead, text })
}

/// The lead and the text of each token of ` ab /**/. c `.
const TOKS: &[(&[u8], &[u8])] = &[(b" ", b"ab"), (b" /**/", b"."), (b" ", b"c")];

fn toks(alloc: Global) -> Result<Toks, Memory> {
    let mut list = List::new(alloc);
    for (lead, text) in TOKS {
        list.push(tok(alloc, lead, text)?)?;
    }
    let tail = Bytes::from_slice(alloc, b" ")?;
    Ok(Toks { list, tail })
}

/// Whether the tokens are those of the table.
fn are_toks(toks: &[Tok]) -> bool {
    let mut left = TOKS;
    for tok in toks {
        match left {
            [(lead, text), rest @ ..] => {
                if tok.lead.as_slice() != *lead || tok.text.as_slice() != *text {
                    return false;
                }
                left = rest;
            }
            [] => return false,
        }
    }
    left.is_empty()
}

#[test]
fn a_copy_has_the_same_tokens_and_tail(rt: HostRuntime) -> Result<(), Fail> {
    let toks = toks(rt.alloc())?.copy(rt.alloc())?;
    assert!(rt; are_toks(toks.list.as_slice()) && toks.tail.as_slice() == b" ".as_slice());
    Ok(())
}

/// A point and an identifier, each with its lead.
fn further(alloc: Global, leads: [&[u8]; 2], text: &[u8]) -> Result<(Tok, Tok), Memory> {
    let point = tok(alloc, leads[0], b".")?;
    Ok((point, tok(alloc, leads[1], text)?))
}

/// ` java. util .List`
fn dotted(alloc: Global) -> Result<Name, Memory> {
    let mut rest = List::new(alloc);
    rest.push(further(alloc, [b"", b" "], b"util")?)?;
    rest.push(further(alloc, [b" ", b""], b"List")?)?;
    let first = tok(alloc, b" ", b"java")?;
    Ok(Name {
        ids: Dotted { first, rest },
    })
}

#[test]
fn a_dotted_name_has_its_points_and_no_trivia(rt: HostRuntime) -> Result<(), Fail> {
    let text = dotted(rt.alloc())?.text(rt.alloc())?;
    assert!(rt; text.as_slice() == b"java.util.List".as_slice());
    Ok(())
}
