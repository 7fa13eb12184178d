//! The leads of tokens, and the tail of a text.

use crate::texts::{Case, behind};
use rf_jlex::lex;
use rf_jtree::{Tok, Toks};
use std::alloc::Global;
use std::test::Fail;

/// Texts, and the leads, texts and tails of their tokens, with `|` before each text and before the tail.
const LEADS: &[Case] = &[
    (b" a /*b*/c//d\n", b" |a /*b*/|c|//d\n"),
    (b"a", b"|a|"),
    (b" // x", b"| // x"),
    (b"", b"|"),
];

/// What stands behind the lead and the text of a token.
fn behind_parts<'a>(text: &'a [u8], tok: &Tok) -> Option<&'a [u8]> {
    let text = behind(text, tok.lead.as_slice())?;
    behind(behind(text, b"|")?, tok.text.as_slice())
}

/// Whether these are the parts of the tokens and of the tail.
fn are_parts(toks: &Toks, want: &[u8]) -> bool {
    let mut left = want;
    for tok in toks.list.as_slice() {
        match behind_parts(left, tok) {
            Some(rest) => left = rest,
            None => return false,
        }
    }
    behind(left, b"|") == Some(toks.tail.as_slice())
}

fn has_parts(alloc: Global, text: &[u8], want: &[u8]) -> bool {
    match lex(alloc, text) {
        Ok(toks) => are_parts(&toks, want),
        Err(_) => false,
    }
}

#[test]
fn a_lead_stands_before_its_token(rt: HostRuntime) -> Result<(), Fail> {
    for (text, want) in LEADS {
        assert!(rt; has_parts(rt.alloc(), text, want));
    }
    Ok(())
}
