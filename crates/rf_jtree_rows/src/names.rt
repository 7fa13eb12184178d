//! New names, and the kinds of tokens by groups (JLS 3.8, 3.9, 3.10).

use rf_jtree::{TokKind, is_identifier, is_word, keyword, operator};
use std::test::Fail;

/// Texts, and whether each is a word and an identifier.
const NAMES: &[(&[u8], bool, bool)] = &[
    (b"a", true, true),
    (b"$", true, true),
    (b"_", true, true),
    (b"x1", true, true),
    (b"\xc3\xa9t\xc3\xa9", true, true),
    (b"var", true, true),
    (b"Public", true, true),
    (b"publics", true, true),
    (b"public", true, false),
    (b"goto", true, false),
    (b"true", true, false),
    (b"null", true, false),
    (b"", false, false),
    (b"1x", false, false),
    (b"a b", false, false),
    (b"a\xc3", false, false),
];

#[test]
fn a_new_name_is_an_identifier(rt: HostRuntime) -> Result<(), Fail> {
    for (text, word, identifier) in NAMES {
        assert!(rt; is_word(text) == *word && is_identifier(text) == *identifier);
    }
    Ok(())
}

/// The kind of a text that is a keyword or an operator, and else an identifier.
fn kind_of(text: &[u8]) -> TokKind {
    if let Some(op) = operator(text) {
        return TokKind::Op(op);
    }
    match keyword(text) {
        Some(word) => TokKind::Key(word),
        None => TokKind::Ident,
    }
}

#[test]
fn separators_operators_and_instanceof_may_follow_a_number(rt: HostRuntime) -> Result<(), Fail> {
    assert!(rt; kind_of(b";").may_follow_number());
    assert!(rt; kind_of(b"instanceof").may_follow_number());
    assert!(rt; !kind_of(b"int").may_follow_number());
    assert!(rt; !kind_of(b"x").may_follow_number());
    assert!(rt; !TokKind::Long.may_follow_number());
    Ok(())
}

#[test]
fn kinds_are_numbers_words_or_neither(rt: HostRuntime) -> Result<(), Fail> {
    assert!(rt; TokKind::Double.is_number());
    assert!(rt; !TokKind::Char.is_number());
    assert!(rt; TokKind::Null.is_word());
    assert!(rt; kind_of(b"this").is_word());
    assert!(rt; !TokKind::Str.is_word());
    Ok(())
}
