ghost use Rattle.std.specs.Prelude.{◌≡◌, ℕ, ◌^◌, ◌<◌, length, slice_get, slice_range, IfOk, Some};
ghost use Rattle.rf_text.specs.declared.span.Span.{Span};
ghost use Rattle.rf_jtree.specs.declared.tokens.Tok.{Tok};
ghost use Rattle.rf_jtree.specs.TokenSpans.{span_of};
ghost use Rattle.rf_jtree.specs.Tokens.{toks_bytes};

use crate::Toks;
use rf_text::{List, Memory, Span};
use std::alloc::Global;

/// Where the text of each token of a file stands in its bytes, in one pass.
pub fn spans(alloc: Global, file: u32, toks: &Toks) -> Result<List<Span>, Memory>
    requires { length (toks_bytes toks.now) < 2 ^ 32 }
    ensures { IfOk result (λ spans. (n : ℕ) → slice_get spans n ≡ span_of file toks.now.list n) }
{
    let mut spans = List::new(alloc);
    let mut end: u32 = 0;
    for tok in toks.list.as_slice() {
        let from = end + tok.lead.len() as u32;
        end = from + tok.text.len() as u32;
        spans.push(Span {
            file,
            from,
            to: end,
        })?;
    }
    Ok(spans)
}

/// The bytes of a file at the span of a token are the text of that token.
pub fn spans_are_texts(toks: &Toks)
    ensures { (file n : ℕ) (tok : Tok) (span : Span)
        → slice_get toks.now.list n ≡ Some tok → span_of file toks.now.list n ≡ Some span
        → slice_range (toks_bytes toks.now) span.from span.to ≡ tok.text }
{}
