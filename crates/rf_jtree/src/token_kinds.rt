ghost use Rattle.std.specs.Prelude.{◌≡◌};
ghost use Rattle.rf_jtree.specs.TokenKinds.{is_number, is_word_kind, may_follow_number};

use crate::TokKind;
use crate::keyword_names::INSTANCEOF;

impl TokKind {
    /// Whether it is a literal of a number (JLS 3.10.1, 3.10.2).
    pub fn is_number(self) -> bool
        ensures { result ≡ is_number self }
    {
        matches!(
            self,
            TokKind::Int | TokKind::Long | TokKind::Float | TokKind::Double
        )
    }

    /// Whether it is spelled as a word: an identifier, a keyword, `true`, `false` or `null` (JLS 3.8, 3.9, 3.10.3, 3.10.7).
    pub fn is_word(self) -> bool
        ensures { result ≡ is_word_kind self }
    {
        matches!(
            self,
            TokKind::Ident | TokKind::Key(_) | TokKind::True | TokKind::False | TokKind::Null
        )
    }

    /// Whether, in a file that fits, such a token may stand right behind a number, with nothing between them.
    pub fn may_follow_number(self) -> bool
        ensures { result ≡ may_follow_number self }
    {
        match self {
            TokKind::Op(_) => true,
            TokKind::Key(word) => word.0 == INSTANCEOF.0,
            _ => false,
        }
    }
}
