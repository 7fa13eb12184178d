ghost use Rattle.std.specs.Prelude.{◌≡◌, IfOk};

use crate::{Kw, Op};
use rf_text::{Bytes, List, Memory};
use std::alloc::Global;

/// What sort of token it is (JLS 3.5).
#[derive(Clone, Copy, Debug, PartialEq, Eq)]
pub enum TokKind {
    Ident,
    Key(Kw),
    Int,
    Long,
    Float,
    Double,
    Char,
    Str,
    True,
    False,
    Null,
    Op(Op),
}

/// A token: its sort, the white space and comments before it, and its text.
#[derive(Drop)]
pub struct Tok {
    pub kind: TokKind,
    /// The trivia since the token before.
    pub lead: Bytes,
    pub text: Bytes,
}

/// The tokens of a file, in order, and the trivia after the last one.
#[derive(Drop)]
pub struct Toks {
    pub list: List<Tok>,
    pub tail: Bytes,
}

impl Tok {
    /// The same token once more.
    pub fn copy(&self, alloc: Global) -> Result<Tok, Memory>
        ensures { IfOk result (λ copied. copied ≡ self.now) }
    {
        let lead = self.lead.copy(alloc)?;
        let text = self.text.copy(alloc)?;
        Ok(Tok {
            kind: self.kind,
            lead,
            text,
        })
    }
}

impl Toks {
    /// The same tokens once more.
    pub fn copy(&self, alloc: Global) -> Result<Toks, Memory>
        ensures { IfOk result (λ copied. copied ≡ self.now) }
    {
        let mut list = List::new(alloc);
        for tok in self.list.as_slice() {
            list.push(tok.copy(alloc)?)?;
        }
        let tail = self.tail.copy(alloc)?;
        Ok(Toks { list, tail })
    }
}
