//! The line of the version, by which a text begins.
ghost use Rattle.std.specs.Prelude.{◌≡◌, ◌≢◌, ◌++◌, ℕ, List, MatchOption};
ghost use Rattle.rf_proof.specs.Texts.{version_line};

use crate::words::after;

/// The line of version 1.
pub const VERSION_1: &[u8] = b"refacola refutation 1\n";

/// What is behind the line of version 1, if the text begins with it.
pub fn behind_version_1(text: &[u8]) -> Option<&[u8]>
    ensures { MatchOption result
        ((rest : List ℕ) → text.now ≢ version_line ++ rest)
        (λ rest. text.now ≡ version_line ++ rest.now) }
{
    after(text, VERSION_1)
}
