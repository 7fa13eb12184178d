//! Laws of token lists and faults.

ghost use Rattle.std.specs.Prelude.{◌≡◌, ℕ};
ghost use Rattle.rf_jtree.specs.Tokens.{AreTokens, IsFault, toks_bytes};
ghost use Rattle.rf_jtree.specs.declared.tokens.Toks.{Toks};
ghost use Rattle.rf_jlex.specs.Lexed.{HasNoTokens};

/// Two token lists of the same bytes are equal.
pub fn token_lists_are_unique(bytes: &[u8])
    ensures { (one other : Toks) → AreTokens bytes.now one → AreTokens bytes.now other → one ≡
        other }
{}

/// The leads and texts of a token list in order, with its tail, are the bytes.
pub fn bytes_come_back(bytes: &[u8])
    ensures { (toks : Toks) → AreTokens bytes.now toks → toks_bytes toks ≡ bytes.now }
{}

/// Two faults of the same bytes are at the same offset.
pub fn faults_are_unique(bytes: &[u8])
    ensures { (one other : ℕ) → IsFault bytes.now one → IsFault bytes.now other → one ≡ other }
{}

/// Bytes with a fault have no token list.
pub fn a_fault_has_no_tokens(bytes: &[u8])
    ensures { (offset : ℕ) → IsFault bytes.now offset → HasNoTokens bytes.now }
{}
